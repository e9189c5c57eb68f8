//! Lemmas, as functions that do nothing when they run: the numbers and the bytes of acts are in the ranges of their types. The definitions speak of numbers
//! without ranges; here those of types answer for them.
ghost use Rattle.std.specs.Prelude.{◌<◌, ◌^◌};
ghost use Rattle.std.specs.List.{AllByRecursion};
ghost use Rattle.journal_law.specs.Told.{IsBlock, IsContent, IsFall};
ghost use Rattle.segment_format.specs.Ranges.{FitsName};
ghost use Rattle.run_audits.specs.Ranges.{FitsAct, FitsFlight};

use version_model::{Act, Fall};
use xfs_base::{BlockId, SegName, Value};

/// A number has 4 bytes.
fn prove_word_fits(number: u32)
    ensures { number < 2 ^ 32 }
{}

/// A number has 8 bytes.
fn prove_long_fits(number: u64)
    ensures { number < 2 ^ 64 }
{}

/// Each of these is a byte.
fn prove_bytes_fit(bytes: &[u8])
    ensures { AllByRecursion (λ byte. byte < 256) bytes.now }
{}

/// The numbers of a block.
fn prove_block_fits(block: BlockId)
    ensures { IsBlock block }
{
    prove_word_fits(block.ino.0);
    prove_word_fits(block.blk);
}

/// The numbers of a segment's name.
fn prove_name_fits(name: SegName)
    ensures { FitsName name }
{
    prove_word_fits(name.seq);
    prove_word_fits(name.pass.inc);
    prove_word_fits(name.pass.att);
}

/// The bytes of a value, which are some.
fn prove_value_fits(value: &Value)
    ensures { IsContent value.now }
{
    if let Some(bytes) = value.bytes() {
        prove_bytes_fit(bytes);
    }
}

/// The numbers of a segment in flight.
fn prove_flight_fits(flight: Option<(u32, u32)>)
    ensures { FitsFlight flight }
{
    if let Some((seq, inc)) = flight {
        prove_word_fits(seq);
        prove_word_fits(inc);
    }
}

/// The numbers of a fall.
fn prove_fall_fits(fall: Fall)
    ensures { IsFall fall }
{
    prove_block_fits(fall.block);
    prove_long_fits(fall.low);
    prove_long_fits(fall.high);
}

/// Those of each of these falls.
fn prove_falls_fit(falls: &[Fall])
    ensures { AllByRecursion IsFall falls.now }
{
    let mut rest = falls;
    while let [fall, behind @ ..] = rest {
        prove_fall_fits(*fall);
        rest = behind;
    }
}

/// Those of each of these names.
fn prove_names_fit(names: &[SegName])
    ensures { AllByRecursion FitsName names.now }
{
    let mut rest = names;
    while let [name, behind @ ..] = rest {
        prove_name_fits(*name);
        rest = behind;
    }
}

/// The numbers and the bytes of an act.
fn prove_act_fits(act: &Act)
    ensures { FitsAct act.now }
{
    match act {
        Act::Wrote {
            client: _,
            block,
            value,
        } => {
            prove_block_fits(*block);
            prove_value_fits(value);
        }
        Act::Read {
            client: _,
            block,
            ver,
            value,
        } => {
            prove_block_fits(*block);
            prove_long_fits(*ver);
            prove_value_fits(value);
        }
        Act::Synced { client: _ } => {}
        Act::Fell {
            client: _,
            flight,
            falls,
        } => {
            prove_flight_fits(*flight);
            prove_falls_fit(falls.as_slice());
        }
        Act::Back { client: _, chain } => prove_names_fit(chain.as_slice()),
        Act::Lost { node: _, seg } => prove_name_fits(*seg),
        Act::Filed { seg } => prove_name_fits(*seg),
        Act::Dropped { seg } => prove_name_fits(*seg),
        Act::Answered {
            node: _,
            item: _,
            answer: _,
        } => {}
    }
}

/// The numbers and the bytes of each of these acts are in the ranges of their types.
pub fn prove_acts_fit(acts: &[Act])
    ensures { AllByRecursion FitsAct acts.now }
{
    let mut rest = acts;
    while let [act, behind @ ..] = rest {
        prove_act_fits(act);
        rest = behind;
    }
}
