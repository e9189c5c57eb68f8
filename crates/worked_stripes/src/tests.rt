use crate::{products, stripes};
use std::test::Fail;

#[test]
fn agrees_with_worked_values(rt: HostRuntime) -> Result<(), Fail> {
    products::folds_byte_by_byte(&rt);
    stripes::reckoned_by_hand(&rt, rt.alloc())?;
    stripes::any_that_suffice_give_the_text_back(&rt, rt.alloc())
}
