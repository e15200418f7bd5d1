//! The two real devices, files in a folder and standard output, and the two in memory that never fail.

use shelf_io::{FetchFault, FolderShelf, Shelf, StdSink, SteadyShelf, SteadySink, write_out};
use std::test::Fail;
use std::{env, fs};

#[test]
fn the_folder_is_read(rt: HostRuntime) -> Result<(), Fail> {
    let alloc = rt.alloc();
    let folder = env::temp_dir(&rt)?;
    let folder = folder
        .as_path()
        .to_str()
        .ok_or("a folder whose name is text")?;
    let file = format!(in alloc; "{folder}/devices.{}", std::process::id(rt.process()))?;
    // More than is read at a time.
    let text = vec![in alloc; 120u8; 150_000]?;
    fs::write(&rt, file.as_str(), &text)?;
    let mut shelf = FolderShelf::new(alloc, rt.clone()?);
    let whole = shelf.fetch(file.as_str(), 200_000);
    let front = shelf.fetch(file.as_str(), 100_000);
    fs::remove_file(&rt, file.as_str())?;
    assert_eq!(rt; whole.map(|bytes| bytes.len()), Ok(150_000));
    assert_eq!(rt; front.map(|bytes| bytes.len()), Ok(100_000));
    for (name, want) in [
        (file.as_str(), FetchFault::Absent),
        ("", FetchFault::Absent),
        (folder, FetchFault::Failed),
        ("a\0b", FetchFault::Failed),
        ("/dev/null/x", FetchFault::Failed),
    ] {
        assert_eq!(rt; shelf.fetch(name, 9).err(), Some(want), "{name}");
    }
    let unread = shelf.unread().map(|unread| unread.name.as_str());
    assert_eq!(rt; unread, Some("/dev/null/x"));
    Ok(())
}

#[test]
fn standard_output_is_written(rt: HostRuntime) -> Result<(), Fail> {
    let mut sink = StdSink::new(rt.clone()?);
    assert_eq!(rt; write_out(&mut sink, b"written by a test\n"), Ok(()));
    Ok(())
}

#[test]
fn steady_devices_never_fail(rt: HostRuntime) -> Result<(), Fail> {
    let alloc = rt.alloc();
    let mut shelf = SteadyShelf::new(alloc);
    shelf.hold("greeting", b"good day\n")?;
    assert_eq!(rt; shelf.fetch("parting", 9).err(), Some(FetchFault::Absent));
    let mut sink = SteadySink::new();
    for most in [5, 9] {
        let text = shelf.fetch("greeting", most)?;
        assert_eq!(rt; write_out(&mut sink, &text), Ok(()));
    }
    assert_eq!(rt; sink.taken(), 14);
    Ok(())
}
