//! The order of requests, and when they are due.

use sequential_run::Requests;
use std::test::Fail;

/// No request is due while another waits, though the next one is known.
#[test]
fn waiting_request(rt: HostRuntime) -> Result<(), Fail> {
    let asks = [(0o60, 0)];
    let mut requests = Requests::new(rt.alloc(), 0o40, asks.as_slice())?;
    let first = [requests.take_due(), requests.take_due()];
    let next = [requests.next_due()];
    requests.exchanged();
    let second = requests.take_due();
    requests.exchanged();
    let last = requests.take_due();
    assert!(rt;
        first == [Some((0o40, 0)), None]
            && next == [Some((0o60, 0))]
            && next == [second]
            && last.is_none()
            && requests.next_due().is_none()
    );
    Ok(())
}

/// Several instructions are counted at once, up to the next request and no further, and then one.
#[test]
fn requests_ahead(rt: HostRuntime) -> Result<(), Fail> {
    let asks = [(0o60, 4)];
    let mut requests = Requests::new(rt.alloc(), 0o40, asks.as_slice())?;
    let first = requests.take_due();
    requests.exchanged();
    let ahead = requests.until_due();
    requests.issued_many(3);
    let (left, none) = (requests.until_due(), requests.take_due());
    requests.issued();
    let second = requests.take_due();
    assert!(rt;
        first == Some((0o40, 0))
            && ahead == 4
            && left == 1
            && none.is_none()
            && second == Some((0o60, 4))
            && requests.until_due() == u64::MAX
    );
    Ok(())
}
