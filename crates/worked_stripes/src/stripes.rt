ghost use Rattle.stripe_code.specs.Stripe.{IsCut};

use std::alloc::Global;
use std::process::Abort;
use std::test::Fail;
use stripe_code::{Round, RoundState, Told, cut};
use xfs_base::{Bytes, FragMeta, Fragment, LogId, Mem, Pass, Prior, SegName};

fn meta_of(index: u8, len: u32) -> FragMeta {
    let pass = Pass { inc: 1, att: 1 };
    FragMeta {
        name: SegName {
            log: LogId(1),
            seq: 1,
            pass,
        },
        group: 1,
        prior: Prior { pass, group: 1 },
        index,
        len,
    }
}

// Whether a round in which the fragments a and b don't come reads the text.
fn is_read_without(alloc: Global, text: &[u8], n: u8, parity: u8, a: u8, b: u8) -> Mem<bool>
    requires { IsCut n parity }
{
    let mut round = Round::start(alloc, n, parity, &[1, 2, 3, 4, 5, 6, 7, 8])?;
    let stripe = cut(alloc, text, usize::from(n), parity)?;
    let mut read = false;
    let mut index = 0_u8;
    for bytes in stripe.into_vec() {
        let meta = meta_of(index, 16);
        let fragment = Fragment {
            meta,
            bytes: Bytes::from_list(bytes)?,
        };
        let server = index.wrapping_add(1);
        if index != a && index != b && round.asks(server) && round.fits(&fragment) {
            if let RoundState::Read(joined) = round.take(alloc, server, Told::Held(fragment))? {
                read = joined.as_slice() == text;
            }
        }
        index = server;
    }
    Ok(read)
}

/// The stripes of three bytes were reckoned by hand.
pub fn reckoned_by_hand(rt: &impl Abort, alloc: Global) -> Mem<()> {
    let reckoned = [[1, 2], [3, 0], [2, 2], [7, 2]];
    for parity in 1..3_u8 {
        let servers = usize::from(parity) + 2;
        let stripe = cut(alloc, &[1, 2, 3], servers, parity)?;
        assert_eq!(rt; stripe.len(), servers, "fragments");
        for (got, wanted) in stripe.as_slice().iter().zip(&reckoned) {
            assert!(rt; got.as_slice() == wanted.as_slice(), "{wanted:?}");
        }
    }
    Ok(())
}

/// Each pattern of missing fragments that the parity makes good gives the text back, for every size, and
/// none else.
pub fn any_that_suffice_give_the_text_back(rt: &impl Abort, alloc: Global) -> Result<(), Fail> {
    for parity in 1..3_u8 {
        for n in (parity + 2)..9 {
            for a in 0..n {
                for b in 0..n {
                    let read = is_read_without(alloc, b"any that suffice", n, parity, a, b)?;
                    assert_eq!(rt; read, parity == 2 || a == b, "{n} without {a} and {b}");
                }
            }
        }
    }
    Ok(())
}
