//! Files of the machine, and room in a sink.

use sac_io::{FetchError, Fetched, Files, MemSink};
use sac_real::DiskFiles;
use std::fs;
use std::test::Fail;

const PLACE: &str = "sac_real_disk_test.txt";

#[test]
fn a_file_of_the_machine_is_fetched(rt: HostRuntime) -> Result<(), Fail> {
    fs::write(&rt, PLACE, b"12345")?;
    let mut files = DiskFiles::new(&rt);
    let mut text = Vec::new(rt.alloc());
    assert_eq!(rt; files.fetch(PLACE, 5, &mut text), Ok(Fetched::Whole));
    assert_eq!(rt; text.as_slice(), b"12345".as_slice());
    text.clear();
    assert_eq!(rt; files.fetch(PLACE, 4, &mut text), Ok(Fetched::Longer));
    fs::remove_file(&rt, PLACE)?;
    assert_eq!(rt; files.fetch(PLACE, 5, &mut text), Err(FetchError::Failed));
    Ok(())
}

#[test]
fn room_is_reserved(rt: HostRuntime) {
    let mut sink = MemSink::new(rt.alloc(), 8, Vec::new(rt.alloc()));
    assert!(rt; sink.reserve(100).is_ok() && sink.spare() >= 100);
}
