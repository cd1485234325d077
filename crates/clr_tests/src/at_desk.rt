//! Tests at a desk over new tables in memory. What a test does there is stated for any store: what
//! a check makes of a desk of this kind is made once, here.
use clr_desk::Desk;
use clr_net::Network;
use clr_store::Store;
use clr_worked::new_desk;
use sqlite::Alter;
use std::alloc::Global;
use std::process::Abort;
use std::test::Fail;

/// What a test does at a desk.
pub trait AtDesk {
    fn go<R: Abort, S: Alter + Drop>(
        &self,
        rt: &R,
        alloc: Global,
        desk: Desk<Store<S>>,
    ) -> Result<(), Fail>;
}

/// Does that at a desk over new tables of a network.
pub fn at_new_desk<R: Abort, T: AtDesk>(
    rt: &R,
    alloc: Global,
    network: Network,
    test: &T,
) -> Result<(), Fail> {
    let desk = new_desk(alloc, network)?;
    test.go(rt, alloc, desk)
}
