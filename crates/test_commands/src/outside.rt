//! Each allocating call with ample memory, and the adapters over real objects.
use hub_outside::{
    Buf, Clock, FileAnswer, Files, FixedClock, MemoryFile, MemoryFiles, MemorySink, MemorySource,
    ReadAnswer, Sink, Source, StdFiles, StdSink, StdSource, SystemClock, WriteAnswer,
};
use std::fs;
use std::fs::Permissions;
use std::os::unix::fs::PermissionsExt;
use std::test::Fail;
use std::time::UNIX_EPOCH;
use texts::LAST_MOMENT;

#[test]
fn buffer_keeps_its_room(rt: HostRuntime) -> Result<(), Fail> {
    let mut buffer = Buf::new(rt.alloc());
    buffer.reserve(4)?;
    buffer.push_all(b"route 7")?;
    assert_eq!(rt; buffer.as_slice(), b"route 7".as_slice());
    buffer.clear();
    assert_eq!(rt; buffer.as_slice(), b"".as_slice());
    Ok(())
}

/// What five reads of a source answer, and the first two bytes after the third.
fn five_reads(source: &mut MemorySource) -> ([ReadAnswer; 5], [u8; 2]) {
    let mut into = [0u8; 8];
    let first = source.read(&mut into);
    let second = source.read(&mut into);
    let third = source.read(&mut into);
    let bytes = [into[0], into[1]];
    let fourth = source.read(&mut into);
    let fifth = source.read(&mut into);
    ([first, second, third, fourth, fifth], bytes)
}

#[test]
fn memory_source_gives_pieces(rt: HostRuntime) -> Result<(), Fail> {
    let bytes = b"abcd".to_vec(rt.alloc())?;
    let pieces = vec![in rt.alloc(); 0, 9, 2]?;
    let failing = vec![in rt.alloc(); 2]?;
    let mut source = MemorySource::new(bytes, pieces, failing);
    let (answers, bytes) = five_reads(&mut source);
    let expected = [
        ReadAnswer::Got(1),
        ReadAnswer::Failed,
        ReadAnswer::Got(2),
        ReadAnswer::Got(1),
        ReadAnswer::End,
    ];
    assert_eq!(rt; answers, expected);
    assert_eq!(rt; bytes, *b"bc");
    Ok(())
}

#[test]
fn memory_sink_takes_pieces(rt: HostRuntime) -> Result<(), Fail> {
    let pieces = vec![in rt.alloc(); 2]?;
    let failing = vec![in rt.alloc(); 3]?;
    let mut sink = MemorySink::new(rt.alloc(), pieces, failing);
    let answers = [sink.write(b"abc"), sink.write(b"cd"), sink.write(b"e")];
    let expected = [
        WriteAnswer::Took(2),
        WriteAnswer::Took(2),
        WriteAnswer::Failed,
    ];
    assert_eq!(rt; answers, expected);
    assert_eq!(rt; sink.bytes(), b"abcd".as_slice());
    Ok(())
}

#[test]
fn memory_files_are_found(rt: HostRuntime) -> Result<(), Fail> {
    let stops = MemoryFile {
        path: String::from_str(rt.alloc(), "city/stops.txt")?,
        bytes: b"stop_id".to_vec(rt.alloc())?,
    };
    let failing = vec![in rt.alloc(); 4]?;
    let mut files = MemoryFiles::new(vec![in rt.alloc(); stops]?, failing);
    let mut into = Buf::new(rt.alloc());
    let whole = files.read_file("city/stops.txt", 7, &mut into);
    assert_eq!(rt; into.as_slice(), b"stop_id".as_slice());
    let answers = [
        whole,
        files.read_file("city/stops.txt", 6, &mut into),
        files.read_file("stops.txt", 7, &mut into),
        files.read_file("city/stops.txt", 7, &mut into),
    ];
    let expected = [
        FileAnswer::Read,
        FileAnswer::TooLong(7),
        FileAnswer::Absent,
        FileAnswer::Failed,
    ];
    assert_eq!(rt; answers, expected);
    Ok(())
}

#[test]
fn clocks_show_moments(rt: HostRuntime) -> Result<(), Fail> {
    let mut fixed = FixedClock::new(vec![in rt.alloc(); 5, 3]?);
    assert_eq!(rt; [fixed.now(), fixed.now(), fixed.now()], [5, 3, 3]);
    let moment = SystemClock::new(&rt).now();
    // It is past the year 2020, and no leap of the clock is tested.
    assert!(rt; moment > 1_577_836_800 && moment < LAST_MOMENT);
    Ok(())
}

/// A path that no other process uses.
fn fresh_path(rt: &HostRuntime, name: &str) -> Result<String, Fail> {
    Ok(format!(in rt.alloc();
        "/tmp/test_commands.{name}.{}",
        std::process::id(rt.process())
    )?)
}

/// The file system dates a new file by the same clock as the system's date.
#[test]
fn system_clock_is_near_the_date_of_a_new_file(rt: HostRuntime) -> Result<(), Fail> {
    let path = fresh_path(&rt, "date")?;
    fs::write(&rt, path.as_str(), "")?;
    let modified = fs::metadata(&rt, path.as_str())?.modified()?;
    fs::remove_file(&rt, path.as_str())?;
    let moment = SystemClock::new(&rt).now();
    let date = modified
        .duration_since(UNIX_EPOCH)
        .map_or(0, |since| since.as_secs());
    assert!(rt; moment.abs_diff(date) < 60);
    Ok(())
}

/// Root may read any file, so where it runs this only sees that the file is there.
#[test]
fn file_that_may_not_be_read_is_a_fault(rt: HostRuntime) -> Result<(), Fail> {
    let path = fresh_path(&rt, "closed")?;
    fs::write(&rt, path.as_str(), "stop_id")?;
    fs::set_permissions(&rt, path.as_str(), Permissions::from_mode(0))?;
    let is_root = fs::open(&rt, path.as_str()).is_ok();
    let mut files = StdFiles::new(&rt);
    let mut into = Buf::new(rt.alloc());
    let answer = files.read_file(path.as_str(), 7, &mut into);
    fs::remove_file(&rt, path.as_str())?;
    if is_root {
        assert_eq!(rt; answer, FileAnswer::Read);
    } else {
        assert_eq!(rt; answer, FileAnswer::Failed);
        assert_eq!(rt; into.as_slice(), b"".as_slice());
    }
    Ok(())
}

#[test]
fn nothing_is_in_a_plain_file(rt: HostRuntime) -> Result<(), Fail> {
    let path = fresh_path(&rt, "plain")?;
    fs::write(&rt, path.as_str(), "PK")?;
    let within = format!(in rt.alloc(); "{}/stops.txt", path.as_str())?;
    let mut files = StdFiles::new(&rt);
    let mut into = Buf::new(rt.alloc());
    let answer = files.read_file(within.as_str(), 7, &mut into);
    fs::remove_file(&rt, path.as_str())?;
    assert_eq!(rt; answer, FileAnswer::Absent);
    Ok(())
}

#[test]
fn std_reader_and_writer(rt: HostRuntime) -> Result<(), Fail> {
    let mut source = StdSource::new(b"ab".as_slice());
    let mut into = [0u8; 4];
    let first = source.read(&mut into);
    assert_eq!(rt; &into[..2], b"ab".as_slice());
    let reads = [first, source.read(&mut into)];
    assert_eq!(rt; reads, [ReadAnswer::Got(2), ReadAnswer::End]);
    let mut room = [0u8; 2];
    let mut sink = StdSink::new(room.as_mut_slice());
    let writes = [sink.write(b"abc"), sink.write(b"c")];
    assert_eq!(rt; writes, [WriteAnswer::Took(2), WriteAnswer::Failed]);
    Ok(())
}

#[test]
fn std_files_are_read(rt: HostRuntime) -> Result<(), Fail> {
    let path = fresh_path(&rt, "file")?;
    fs::write(&rt, path.as_str(), "stop_id")?;
    let mut files = StdFiles::new(&rt);
    let mut into = Buf::new(rt.alloc());
    let whole = files.read_file(path.as_str(), 7, &mut into);
    assert_eq!(rt; into.as_slice(), b"stop_id".as_slice());
    let too_long = files.read_file(path.as_str(), 6, &mut into);
    fs::remove_file(&rt, path.as_str())?;
    let answers = [
        whole,
        too_long,
        files.read_file(path.as_str(), 7, &mut into),
        files.read_file("/", 7, &mut into),
    ];
    let expected = [
        FileAnswer::Read,
        FileAnswer::TooLong(7),
        FileAnswer::Absent,
        FileAnswer::Failed,
    ];
    assert_eq!(rt; answers, expected);
    assert_eq!(rt; into.as_slice(), b"".as_slice());
    Ok(())
}
