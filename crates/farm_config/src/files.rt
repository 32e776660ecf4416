//! Lists of files: updates and expiry lists.
ghost use Rattle.std.specs.Prelude.{◌≡◌, ◌≤◌, ◌<◌, ◌^◌, [], nat_lt, length, IfOk, IsTrue, option_map};
ghost use Rattle.serde_json.specs.View.{view, items_view};
ghost use Rattle.reading.specs.Lists.{list_of};
ghost use Rattle.reading.specs.Steps.{Gives};
ghost use Rattle.reading.specs.Values.{or_value};
ghost use Rattle.farm_config.specs.Limits.{most_files};
ghost use Rattle.farm_config.specs.Tables as spec;
ghost use Rattle.farm_config.specs.declared.fault.ConfigFault.TheVariants as fault;

use crate::fault::ConfigFault;
use crate::kinds::a_file;
use crate::limits::MOST_FILES;
use farm_base::Text;
use reading::{ReadItem, list, read_list};
use serde_json::Value;
use std::alloc::Global;

#[derive(Drop)]
struct FileItems {
    key: u32,
}

impl ReadItem for FileItems {
    type Item = Text;

    type Fault = ConfigFault;

    ghost limit = { λ r. 2 ^ 64 };

    ghost reads = { λ r before d. spec.file_after r.key before d };

    ghost keeps = { λ r before name. nat_lt (length before) most_files };

    #[tactic(auto, unfolding(crate::specs::Tables::file_after))]
    fn read(&self, alloc: Global, before: &[Text], value: &Value) -> Result<Text, ConfigFault> {
        if before.len() >= MOST_FILES {
            return Err(ConfigFault::Range(self.key));
        }
        let name = a_file(value, self.key)?;
        Ok(Text::of(alloc, name)?)
    }
}

fn file_list(alloc: Global, items: &[Value], key: u32) -> Result<Vec<Text>, ConfigFault>
    requires { length items.now < 2 ^ 64 }
    ensures value { Gives fault.NoMemory (λ v. v.items)
        (list_of (spec.file_after key) (items_view items.now)) result }
    ensures few { IfOk result (λ v. length v.items ≤ most_files) }
{
    let names = read_list(alloc, &FileItems { key }, items)?;
    Ok(names)
}

/// The names of files at a key that may be absent.
#[tactic(auto, unfolding(crate::specs::Tables::files_of))]
pub fn files(alloc: Global, found: Option<&Value>, key: u32) -> Result<Vec<Text>, ConfigFault>
    ensures value { Gives fault.NoMemory (λ v. v.items)
        (or_value [] (spec.files_of key) (option_map (λ v. view v.now) found.entry)) result }
    ensures few { IfOk result (λ v. length v.items ≤ most_files) }
{
    if found.is_none() {
        return Ok(Vec::new(alloc));
    }
    let items = list(found, ConfigFault::Shape(key))?;
    file_list(alloc, items, key)
}
