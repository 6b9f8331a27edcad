//! What no clause says: that calls succeed while there is memory, and what the objects over the runtime do.
use crate::*;
use std::alloc::{AllocError, Allocator, Global};
use std::env::Env;
use std::fmt::Display;
use std::fs::{File, Metadata, OpenFile, OpenOptions};
use std::os::unix::fs::symlink;
use std::path::PathBuf;
use std::rt::Files;
use std::test::Fail;
use std::{env, fs, io, process};

fn text(bytes: &[u8]) -> &str {
    str::from_utf8(bytes).unwrap_or("not text")
}

/// What a read or a load answered, as a text to compare.
fn answer(found: &Result<Option<Vec<u8>>, Lost>) -> &str {
    match found {
        Ok(Some(bytes)) => text(bytes),
        Ok(None) => "none",
        Err(Lost::Failed) => "failed",
        Err(Lost::NoMemory) => "no memory",
    }
}

/// A file for each of these names, which blanks part. Its bytes are its name.
fn files_of(alloc: Global, names: &str) -> Result<Vec<(String, Vec<u8>)>, AllocError> {
    let mut files = Vec::new(alloc);
    for name in names.split(' ') {
        let bytes = name.as_bytes().to_vec(alloc)?;
        files.push((String::from_str(alloc, name)?, bytes))?;
    }
    Ok(files)
}

#[test]
fn files_can_stand_in_a_folder(rt: HostRuntime) -> Result<(), Fail> {
    let alloc = rt.alloc();
    for (names, expected) in [
        ("a", true),
        ("a b", true),
        ("a a", false),
        ("a b c a", false),
        ("a b c aa", true),
        ("a b b", false),
    ] {
        let files = files_of(alloc, names)?;
        assert_eq!(rt; is_folder(&files), expected, "{names}");
    }
    let mut name = String::new(alloc);
    for _ in 0..NAME_LIMIT {
        name.push('x')?;
    }
    assert!(rt; is_folder(&files_of(alloc, name.as_str())?));
    name.push('x')?;
    assert!(rt; !is_folder(&files_of(alloc, name.as_str())?));
    Ok(())
}

#[test]
fn listed_calls_of_a_folder_fail(rt: HostRuntime) -> Result<(), Fail> {
    let alloc = rt.alloc();
    let files = files_of(alloc, "page.html a.user.js")?;
    assert!(rt; is_folder(&files));
    let mut folder = MemoryFolder::new(files, vec![in alloc; 2, 5]?);
    assert_eq!(rt; folder.names()?.len(), 2);
    for (name, expected) in [
        ("page.html", "failed"),
        ("page.html", "page.html"),
        ("index.html", "none"),
        ("a.user.js", "failed"),
        ("a.user.js", "a.user.js"),
    ] {
        assert_eq!(rt; answer(&folder.read(name)), expected);
    }
    Ok(())
}

#[test]
fn listed_calls_of_a_keeper_fail(rt: HostRuntime) -> Result<(), Fail> {
    let alloc = rt.alloc();
    let mut keeper = MemoryKeeper::new(alloc, None, vec![in alloc; 1, 3]?);
    assert_eq!(rt; answer(&keeper.load()), "failed");
    assert_eq!(rt; answer(&keeper.load()), "none");
    assert_eq!(rt; keeper.save(b"one"), Err(Lost::Failed));
    assert!(rt; keeper.kept().is_none());
    keeper.save(b"one")?;
    assert_eq!(rt; answer(&keeper.load()), "one");
    keeper.save(b"two")?;
    assert!(rt; keeper.kept().map(text) == Some("two"));
    Ok(())
}

#[test]
fn listed_calls_of_a_sink_fail(rt: HostRuntime) -> Result<(), Fail> {
    let alloc = rt.alloc();
    for (step, failing, expected, written) in [
        (1, 9, Ok(()), "abcdefg"),
        (3, 9, Ok(()), "abcdefg"),
        (9, 9, Ok(()), "abcdefg"),
        (3, 1, Err(Lost::Failed), ""),
        (3, 2, Err(Lost::Failed), "abc"),
        (3, 3, Err(Lost::Failed), "abcdef"),
        (3, 4, Ok(()), "abcdefg"),
    ] {
        let mut sink = MemorySink::new(alloc, step, vec![in alloc; failing]?);
        assert_eq!(rt; write_all(&mut sink, b"abcdefg"), expected);
        assert_eq!(rt; text(sink.written()), written);
    }
    Ok(())
}

#[test]
fn quiet_objects_answer(rt: HostRuntime) -> Result<(), Fail> {
    let alloc = rt.alloc();
    let files = files_of(alloc, "page.html")?;
    assert!(rt; is_folder(&files));
    let mut folder = QuietFolder::new(files);
    assert_eq!(rt; folder.names()?.len(), 1);
    assert_eq!(rt; answer(&folder.read("page.html")), "page.html");
    let mut keeper = QuietKeeper::new(alloc, Some(b"one".to_vec(alloc)?));
    assert_eq!(rt; answer(&keeper.load()), "one");
    keeper.save(b"two")?;
    assert!(rt; keeper.kept().map(text) == Some("two"));
    let mut sink = QuietSink::new(alloc, 2);
    assert_eq!(rt; sink.write(b"abc")?, 2);
    write_all(&mut sink, b"cd")?;
    assert_eq!(rt; text(sink.written()), "abcd");
    Ok(())
}

/// Goes into a new folder, whose path it answers. Each test is a process, so its number makes the name new.
fn enter_new_folder<R: Files + Env + AllocGlobal>(rt: &R, process: u32) -> io::Result<PathBuf> {
    let name = format!(in rt.alloc(); "outside-test-{process}")?;
    let path = env::temp_dir(rt)?.join(rt.alloc(), name.as_str())?;
    fs::create_dir(rt, path.as_path())?;
    env::set_current_dir(rt, path.as_path())?;
    Ok(path)
}

fn is_listed(names: &[String], name: &str) -> bool {
    names.iter().any(|listed| listed.as_str() == name)
}

#[test]
fn the_current_folder_is_read(rt: HostRuntime) -> Result<(), Fail> {
    let path = enter_new_folder(&rt, process::id(rt.process()))?;
    fs::write(&rt, "page.html", "<p>")?;
    fs::create_dir(&rt, "inner")?;
    symlink(&rt, "page.html", "to_file")?;
    symlink(&rt, "inner", "to_folder")?;
    symlink(&rt, "nowhere", "to_nothing")?;
    symlink(&rt, "to_itself", "to_itself")?;
    File::create(&rt, "at_limit")?.set_len(FILE_LIMIT)?;
    File::create(&rt, "over_limit")?.set_len(FILE_LIMIT + 1)?;
    let mut folder = HostFolder::new(&rt);
    let names = folder.names()?;
    for (name, expected) in [
        ("page.html", "<p>"),
        ("to_file", "<p>"),
        ("inner", "none"),
        ("to_folder", "none"),
        ("to_nothing", "none"),
        ("to_itself", "none"),
        ("missing", "none"),
        ("./page.html", "none"),
        ("over_limit", "failed"),
    ] {
        assert_eq!(rt; answer(&folder.read(name)), expected);
        assert_eq!(rt; is_listed(&names, name), expected != "none", "{name}");
    }
    let longest = folder.read("at_limit")?.map(|bytes| bytes.len() as u64);
    assert_eq!(rt; longest, Some(FILE_LIMIT));
    fs::remove_dir_all(&rt, path.as_path())?;
    Ok(())
}

/// The files of the runtime, but for the names that a listing gives, each ended by a NUL.
#[derive(Clone, Copy)]
struct Listing {
    rt: HostRuntime,
    names: &'static [u8],
}

impl Alloc for Listing {
    type A = Global;

    fn alloc(&self) -> Global {
        self.rt.alloc()
    }
}

impl Files for Listing {
    type File = File;

    type Dir = &'static [u8];

    fn open_dir(&self, _path: &str) -> io::Result<&'static [u8]> {
        Ok(self.names)
    }

    fn open_file(&self, how: &OpenOptions, path: &str) -> io::Result<File> {
        self.rt.open_file(how, path)
    }

    fn metadata(&self, path: &str) -> io::Result<Metadata> {
        self.rt.metadata(path)
    }

    fn symlink_metadata(&self, path: &str) -> io::Result<Metadata> {
        self.rt.symlink_metadata(path)
    }

    fn copy(&self, from: &str, to: &str) -> io::Result<u64> {
        self.rt.copy(from, to)
    }

    fn rename(&self, from: &str, to: &str) -> io::Result<()> {
        self.rt.rename(from, to)
    }

    fn remove_file(&self, path: &str) -> io::Result<()> {
        self.rt.remove_file(path)
    }

    fn create_dir(&self, path: &str) -> io::Result<()> {
        self.rt.create_dir(path)
    }

    fn remove_dir(&self, path: &str) -> io::Result<()> {
        self.rt.remove_dir(path)
    }

    fn remove_dir_all<B: Allocator>(&self, alloc: B, path: &str) -> io::Result<()> {
        self.rt.remove_dir_all(alloc, path)
    }
}

#[test]
fn a_name_that_is_no_text_fails_the_listing(rt: HostRuntime) -> Result<(), Fail> {
    let path = enter_new_folder(&rt, process::id(rt.process()))?;
    fs::write(&rt, "page.html", "<p>")?;
    let table: [(&'static [u8], Result<usize, Lost>); 3] = [
        (b"", Ok(0)),
        (b"page.html\0missing\0", Ok(1)),
        (b"page.html\0\xff\0", Err(Lost::Failed)),
    ];
    for (names, expected) in table {
        let mut folder = HostFolder::new(Listing { rt, names });
        assert_eq!(rt; folder.names().map(|names| names.len()), expected);
    }
    fs::remove_dir_all(&rt, path.as_path())?;
    Ok(())
}

#[test]
fn a_store_is_kept(rt: HostRuntime) -> Result<(), Fail> {
    let path = enter_new_folder(&rt, process::id(rt.process()))?;
    let mut keeper = HostKeeper::new(&rt);
    assert_eq!(rt; answer(&keeper.load()), "none");
    // What a save that was cut off left.
    fs::write(&rt, "store.json.new", "half of a st")?;
    for saved in ["one", "", "two"] {
        keeper.save(saved.as_bytes())?;
        assert_eq!(rt; answer(&keeper.load()), saved);
    }
    assert!(rt; !fs::exists(&rt, "store.json.new")?);
    // A folder stands in the way of the second file.
    fs::create_dir(&rt, "store.json.new")?;
    assert_eq!(rt; keeper.save(b"three"), Err(Lost::Failed));
    assert_eq!(rt; answer(&keeper.load()), "two");
    File::create(&rt, "store.json")?.set_len(STORE_LIMIT + 1)?;
    assert_eq!(rt; answer(&keeper.load()), "failed");
    fs::remove_dir_all(&rt, path.as_path())?;
    Ok(())
}

/// A standard output that takes nothing, or fails.
#[derive(Drop)]
struct Stuck {
    fails: bool,
}

impl Print for Stuck {
    fn print<D: Display + Drop>(&self, _value: D) -> io::Result<()> {
        Ok(())
    }

    fn println<D: Display + Drop>(&self, _value: D) -> io::Result<()> {
        Ok(())
    }

    fn write_all(&self, _bytes: &[u8]) -> io::Result<()> {
        Ok(())
    }

    fn write_some(&self, _bytes: &[u8]) -> io::Result<usize> {
        if self.fails {
            Err(io::Error::from(io::ErrorKind::BrokenPipe))
        } else {
            Ok(0)
        }
    }
}

#[test]
fn standard_output_is_written(rt: HostRuntime) -> Result<(), Fail> {
    write_all(&mut HostSink::new(&rt), b"abc\n")?;
    for fails in [false, true] {
        let stuck = Stuck { fails };
        let mut sink = HostSink::new(&stuck);
        assert_eq!(rt; sink.write(b""), Ok(0));
        assert_eq!(rt; sink.write(b"abc"), Err(Lost::Failed));
    }
    Ok(())
}
