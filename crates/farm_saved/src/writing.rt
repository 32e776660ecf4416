//! From what is saved to its text.
ghost use Rattle.std.specs.Prelude.{◌≡◌, ◌<◌, ◌+◌, ◌++◌, All, IfOk, OnOk};
ghost use Rattle.std.specs.List.{flat_map};
ghost use Rattle.byteorder.specs.Endian.{little_bytes};
ghost use Rattle.farm_saved.specs.Savings.{IsSaving, StyleFits};
ghost use Rattle.farm_saved.specs.Writing as spec;

use byteorder::{ByteOrder, LittleEndian};
use farm_base::NoMemory;
use farm_history::{Kept, Past, Saved};
use meta_container::put_number;
use std::alloc::Global;

fn put_long(out: &mut Vec<u8>, number: u64) -> Result<(), NoMemory>
    ensures { OnOk result (out.new.items ≡ out.old.items ++ little_bytes 8 number) }
{
    let mut bytes = [0u8; 8];
    LittleEndian::write_u64(&mut bytes, number);
    out.extend_from_slice(&bytes)?;
    Ok(())
}

fn put_style(out: &mut Vec<u8>, style: Option<u32>) -> Result<(), NoMemory>
    requires { StyleFits style }
    ensures { OnOk result (out.new.items ≡ out.old.items ++ spec.style_bytes style) }
{
    match style {
        Some(number) => put_number(out, number + 1),
        None => put_number(out, 0),
    }
}

#[tactic(auto, using(crate::proofs::Puts::put_more, crate::proofs::Puts::put_end))]
fn put_styles(out: &mut Vec<u8>, styles: &[Option<u32>]) -> Result<(), NoMemory>
    requires { All StyleFits styles.now }
    ensures { OnOk result (out.new.items ≡ out.old.items ++ flat_map spec.style_bytes styles.now) }
{
    for style in styles {
        put_style(out, *style)?;
    }
    Ok(())
}

fn put_update(out: &mut Vec<u8>, past: Past) -> Result<(), NoMemory>
    ensures { OnOk result (out.new.items ≡ out.old.items ++ spec.past_bytes past) }
{
    let (kind, number) = match past {
        Past::Update(number) => (0, number),
        Past::Renew(number) => (1, number),
    };
    put_number(out, kind)?;
    put_number(out, number)
}

#[tactic(auto, using(crate::proofs::Puts::put_more, crate::proofs::Puts::put_end))]
fn put_updates(out: &mut Vec<u8>, updates: &[Past]) -> Result<(), NoMemory>
    ensures { OnOk result (out.new.items ≡ out.old.items ++ flat_map spec.past_bytes updates.now) }
{
    for past in updates {
        put_update(out, *past)?;
    }
    Ok(())
}

fn put_entry(out: &mut Vec<u8>, kept: Kept) -> Result<(), NoMemory>
    ensures { OnOk result (out.new.items ≡ out.old.items ++ spec.kept_bytes kept) }
{
    put_number(out, kept.key.map)?;
    put_number(out, kept.key.meta.z)?;
    put_number(out, kept.key.meta.x)?;
    put_number(out, kept.key.meta.y)?;
    put_long(out, kept.version)
}

#[tactic(auto, using(crate::proofs::Puts::put_more, crate::proofs::Puts::put_end))]
fn put_clean(out: &mut Vec<u8>, clean: &[Kept]) -> Result<(), NoMemory>
    ensures { OnOk result (out.new.items ≡ out.old.items ++ flat_map spec.kept_bytes clean.now) }
{
    for kept in clean {
        put_entry(out, *kept)?;
    }
    Ok(())
}

/// The text of what is saved, which is sound.
#[tactic(auto, unfolding(crate::specs::Writing::saved_bytes))]
pub fn write_saved(alloc: Global, saved: &Saved) -> Result<Vec<u8>, NoMemory>
    requires { IsSaving saved.now }
    ensures { IfOk result (λ v. v.items ≡ spec.saved_bytes saved.now) }
{
    let mut out = Vec::new(alloc);
    out.extend_from_slice(b"FSV1")?;
    put_number(&mut out, saved.styles.len() as u32)?;
    put_styles(&mut out, saved.styles.as_slice())?;
    put_long(&mut out, saved.updates.len() as u64)?;
    put_updates(&mut out, saved.updates.as_slice())?;
    put_long(&mut out, saved.clean.len() as u64)?;
    put_clean(&mut out, saved.clean.as_slice())?;
    Ok(out)
}
