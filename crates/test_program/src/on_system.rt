//! The commands on the system's own files, with the words of a command, an input and an output.
use crate::boards::PLAYED;
use crate::city::{CITY, turned};
use hub_main::run_on_system;
use rt_types::Text;
use std::fs;
use std::fs::Permissions;
use std::os::unix::fs::PermissionsExt;
use std::test::Fail;

/// A path in a folder that no other process uses.
fn fresh_path(rt: &HostRuntime, name: &str) -> Result<String, Fail> {
    let process = std::process::id(rt.process());
    Ok(format!(in rt.alloc(); "/tmp/test_program.{process}{name}")?)
}

/// Whether the program of that command, configuration and input ends with the status and prints
/// just that.
fn ends(
    rt: &HostRuntime,
    command: &str,
    path: &str,
    input: &[u8],
    status: u8,
    told: &[u8],
) -> Result<bool, Fail> {
    let alloc = rt.alloc();
    let words = vec![in alloc; Text::new(alloc, command)?, Text::new(alloc, path)?]?;
    let mut room = [0u8; 1024];
    let got = run_on_system(alloc, &words, rt, input, room.as_mut_slice());
    let rest = room.as_slice().strip_prefix(told);
    Ok(got == status && rest.is_some_and(|rest| rest.iter().all(|byte| *byte == 0)))
}

#[test]
fn scripts_are_replayed_on_files(rt: HostRuntime) -> Result<(), Fail> {
    let alloc = rt.alloc();
    let folder = fresh_path(&rt, "")?;
    let city = fresh_path(&rt, "/city")?;
    fs::create_dir_all(&rt, city.as_str())?;
    let line = format!(in alloc; "folder = \"{city}\"")?;
    for (name, text) in CITY {
        let path = format!(in alloc; "{folder}/{name}")?;
        let bytes = turned(alloc, text, "folder = \"city\"", line.as_bytes())?;
        fs::write(&rt, path.as_str(), &bytes)?;
    }
    let conf = fresh_path(&rt, "/city.toml")?;
    let mut all_done = true;
    for (script, told) in PLAYED {
        let is_done = ends(&rt, "replay", conf.as_str(), script, 0, told.as_bytes())?;
        all_done = all_done && is_done;
    }
    fs::remove_dir_all(&rt, folder.as_str())?;
    assert!(rt; all_done);
    Ok(())
}

/// Root may read any file, so where it runs this only sees that the file is there.
#[test]
fn a_file_that_may_not_be_read_is_a_fault(rt: HostRuntime) -> Result<(), Fail> {
    let path = fresh_path(&rt, ".toml")?;
    fs::write(&rt, path.as_str(), "=")?;
    fs::set_permissions(&rt, path.as_str(), Permissions::from_mode(0))?;
    let is_root = fs::open(&rt, path.as_str()).is_ok();
    let refused = ends(&rt, "check", path.as_str(), b"", 3, b"hub: config toml\n")?;
    let failed = ends(&rt, "check", path.as_str(), b"", 4, b"hub: file fault\n")?;
    fs::remove_file(&rt, path.as_str())?;
    assert_eq!(rt; (refused, failed), (is_root, !is_root));
    Ok(())
}
