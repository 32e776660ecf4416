//! The line of a farm's counts.
ghost use Rattle.std.specs.Prelude.{◌≡◌, ◌≤◌, ◌+◌, ◌++◌, length};
ghost use Rattle.std.specs.Fmt.{decimal};
ghost use Rattle.arrayvec.specs.ArrayString.{array_string_len};
ghost use Rattle.script_answers.specs.Answers.{tally_line};
ghost use Rattle.farm_call.specs.Endings.{TellsCounts};

use arrayvec::ArrayString;
use exit_status::Stop;
use farm_base::Sink;
use farm_plan::Tally;
use itoa::Buffer;

fn put_number(out: &mut ArrayString<128>, word: &str, number: u64)
    requires room { array_string_len out.old + length word.now + 20 ≤ 128 }
    ensures bytes { out.new.bytes ≡ out.old.bytes ++ word.now ++ decimal number }
    ensures len { array_string_len out.new ≤ array_string_len out.old + length word.now + 20 }
{
    let mut digits = Buffer::new();
    out.push_str(word);
    out.push_str(digits.format(number));
}

fn tally_line(tally: Tally) -> ArrayString<128>
    ensures { result.bytes ≡ tally_line tally }
{
    let mut out = ArrayString::new();
    put_number(&mut out, "asks ", tally.asks);
    put_number(&mut out, " done ", tally.done);
    put_number(&mut out, " stored ", tally.stored);
    put_number(&mut out, " version ", tally.version);
    out.push_str("\n");
    out
}

/// Puts the line of the counts on out, where they were taken; SinkFailed where that put failed, and else the end as it was.
pub fn tell<O: Sink>(out: &mut O, tally: Option<Tally>, end: Result<(), Stop>) -> Result<(), Stop>
    ensures { TellsCounts tally (O.state out.old) (O.state out.new) end result }
{
    let Some(tally) = tally else {
        return end;
    };
    match out.put(tally_line(tally).as_str().as_bytes()) {
        Ok(()) => end,
        Err(_) => Err(Stop::SinkFailed),
    }
}
