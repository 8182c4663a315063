//! Which types are `Send`: a call that compiles shows it.

use sctp_endpoint::Endpoint;
use sctp_framing::{DataFraming, IDataFraming};
use sctp_pair::Pair;
use sctp_send::Sender;
use std::test::Fail;

/// Can be called only for types that another thread may be given.
fn is_for_any_thread<T: Send>() -> bool {
    true
}

#[test]
fn an_end_is_for_any_thread(rt: HostRuntime) -> Result<(), Fail> {
    assert!(rt; is_for_any_thread::<Sender<DataFraming>>());
    assert!(rt; is_for_any_thread::<Sender<IDataFraming>>());
    assert!(rt; is_for_any_thread::<Endpoint>());
    assert!(rt; is_for_any_thread::<Pair>());
    Ok(())
}
