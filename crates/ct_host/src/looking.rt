ghost use Rattle.std.specs.Prelude.{◌≡◌, ◌≢◌, IfOk, OnOk, MatchResult};
ghost use Rattle.std.specs.Path.{path_buf_bytes};
ghost use Rattle.ct_host.specs.Looking.{Adds, AreNamedIn, DoesNotHold, IsAt, IsChecked, IsLoaded, IsNoFile, IsParsed, IsUnreadable, UpToFault, path_from, why_of};

use crate::disk::Disk;
use crate::stop::{Told, Why};
use ct_check::{CheckError, CheckFault, Checked, check};
use ct_file::{Fault, File, FileError, position_of, read};
use ct_report::TestFile;
use ct_sources::{Source, Sources, named_files};
use ic_base::NoMemory;
use ic_principal::{Bytes, Text};
use std::alloc::{AllocError, Global};
use std::marker::Model;
use std::path::{Path, PathBuf};

/// What came of inputs in their order, up to the first fault.
#[derive(Drop)]
pub(crate) struct Looked<T> {
    pub(crate) items: Vec<T>,
    pub(crate) fault: Option<Told>,
}

/// A test file as it was read.
#[derive(Drop)]
pub(crate) struct Loaded {
    pub(crate) name: Text,
    pub(crate) bytes: Bytes,
}

/// The file that the text of a test file is, and the files that it names.
#[derive(Drop)]
pub(crate) struct Sourced<'a> {
    pub(crate) loaded: &'a Loaded,
    pub(crate) file: File<'a>,
    pub(crate) sources: Sources,
}

impl<'a> Model for Sourced<'a> {
    ghost use Rattle.ct_host.specs.Looking.{SourcedFile};

    ghost Value = { SourcedFile };

    ghost view = { λ s. record { name = s.loaded.now.name; text = s.loaded.now.bytes; file = s.file; sources = s.sources } };
}

/// A test file of which all holds that must.
#[derive(Drop)]
pub(crate) struct Suite<'i, 'a> {
    pub(crate) sourced: &'i Sourced<'a>,
    pub(crate) checked: Checked<'i, 'i, 'a>,
}

impl<'i, 'a> Model for Suite<'i, 'a> {
    ghost use Rattle.ct_host.specs.Looking.{Suite};

    ghost Value = { Suite };

    ghost view = { λ s. record { sourced = s.sourced.now; checked = s.checked } };
}

impl<'i, 'a> Suite<'i, 'a> {
    /// As reports tell of it.
    pub(crate) fn test_file(&self) -> TestFile<'i>
        ensures name { result.name.now ≡ self.now.sourced.name }
        ensures text { result.text.now ≡ self.now.sourced.text }
        ensures sources { result.sources.now ≡ self.now.sourced.sources }
    {
        let sourced = self.sourced;
        let loaded = sourced.loaded;
        TestFile {
            name: loaded.name.items.as_str(),
            text: &loaded.bytes.items,
            sources: &sourced.sources,
        }
    }
}

fn unreadable(alloc: Global, name: &Text) -> Result<Told, NoMemory>
    ensures { IfOk result (λ told. told.why ≡ Why.Unreadable) }
{
    let name = name.items.as_str();
    Ok(Told {
        why: Why::Unreadable,
        line: format!(in alloc; "{name}: could not be read\n")?,
    })
}

// Reads a test file.
fn load_one<D: Disk>(alloc: Global, disk: &D, name: &Text) -> Result<Result<Loaded, Told>, NoMemory>
    ensures { IfOk result (λ found. MatchResult found (λ loaded. IsLoaded (D.gives disk.now) name.now loaded)
        (λ told. IsUnreadable (D.gives disk.now) name.now told.why)) }
{
    match disk.read(alloc, name.items.as_str())? {
        Some(bytes) => {
            let name = name.copy()?;
            Ok(Ok(Loaded { name, bytes }))
        }
        None => Ok(Err(unreadable(alloc, name)?)),
    }
}

/// Reads test files.
pub(crate) fn load<D: Disk>(
    alloc: Global,
    disk: &D,
    names: &[Text],
) -> Result<Looked<Loaded>, NoMemory>
    ensures { IfOk result (λ looked. UpToFault (IsLoaded (D.gives disk.now)) (IsUnreadable (D.gives disk.now)) names.now
        looked.items.items (why_of looked.fault)) }
{
    let mut items = Vec::new(alloc);
    for name in names {
        match load_one(alloc, disk, name)? {
            Ok(loaded) => items.push(loaded)?,
            Err(told) => {
                let fault = Some(told);
                return Ok(Looked { items, fault });
            }
        }
    }
    Ok(Looked { items, fault: None })
}

// Where a file is that a test file names.
fn path_from(alloc: Global, from: &str, name: &str) -> Result<PathBuf, NoMemory>
    ensures { IfOk result (λ path. path_buf_bytes path ≡ path_from from.now name.now) }
{
    let folder = Path::new(from).parent().unwrap_or(Path::new(""));
    folder.join(alloc, name)
}

// What the file at a path is, if it can be read.
fn source_at<D: Disk>(alloc: Global, disk: &D, path: &str) -> Result<Option<Source>, NoMemory>
    ensures { IfOk result (λ source. IsAt (D.gives disk.now) path.now source) }
{
    match disk.read(alloc, path)? {
        None => Ok(None),
        Some(bytes) => Ok(Some(Source::of(alloc, bytes)?)),
    }
}

// Adds the files with these names.
fn add_all<D: Disk>(
    alloc: Global,
    disk: &D,
    from: &str,
    names: &[Text],
    sources: &mut Sources,
) -> Result<(), NoMemory>
    ensures { OnOk result (Adds (D.gives disk.now) from.now sources.old names.now sources.new) }
{
    for name in names {
        let path = path_from(alloc, from, name.items.as_str())?;
        let source = source_at(alloc, disk, path.as_str())?;
        sources.put(alloc, name, source)?;
    }
    Ok(())
}

// The files that a test file names.
fn sources_of<D: Disk>(
    alloc: Global,
    disk: &D,
    from: &str,
    file: &File<'_>,
) -> Result<Sources, NoMemory>
    ensures { IfOk result (λ sources. AreNamedIn (D.gives disk.now) from.now file.now sources) }
{
    let names = named_files(alloc, file)?;
    let mut sources = Sources::new(alloc)?;
    add_all(alloc, disk, from, &names, &mut sources)?;
    Ok(sources)
}

fn no_file(alloc: Global, loaded: &Loaded, fault: Fault) -> Result<Told, NoMemory>
    ensures { IfOk result (λ told. told.why ≡ Why.Faulty) }
{
    let name = loaded.name.items.as_str();
    let text = &loaded.bytes.items;
    let at = position_of(text, fault.place.min(text.len()));
    let cause = fault.cause;
    Ok(Told {
        why: Why::Faulty,
        line: format!(in alloc; "{name}:{at}: {cause}\n")?,
    })
}

// The file that a text is, and the files that it names.
fn source_one<'a, D: Disk>(
    alloc: Global,
    disk: &D,
    loaded: &'a Loaded,
) -> Result<Result<Sourced<'a>, Told>, NoMemory>
    ensures { IfOk result (λ found. MatchResult found (λ sourced. IsParsed (D.gives disk.now) loaded.now sourced)
        (λ told. IsNoFile loaded.now told.why)) }
{
    match read(alloc, &loaded.bytes.items) {
        Ok(file) => {
            let sources = sources_of(alloc, disk, loaded.name.items.as_str(), &file)?;
            Ok(Ok(Sourced {
                loaded,
                file,
                sources,
            }))
        }
        Err(FileError::NoMemory) => Err(AllocError),
        Err(FileError::Faulty(fault)) => Ok(Err(no_file(alloc, loaded, fault)?)),
    }
}

/// The files that texts are, and the files that they name.
pub(crate) fn source<'a, D: Disk>(
    alloc: Global,
    disk: &D,
    loaded: &'a [Loaded],
) -> Result<Looked<Sourced<'a>>, NoMemory>
    ensures { IfOk result (λ looked. UpToFault (IsParsed (D.gives disk.now)) IsNoFile loaded.now looked.items.items (why_of looked.fault)) }
{
    let mut items = Vec::new(alloc);
    for one in loaded {
        match source_one(alloc, disk, one)? {
            Ok(sourced) => items.push(sourced)?,
            Err(told) => {
                let fault = Some(told);
                return Ok(Looked { items, fault });
            }
        }
    }
    Ok(Looked { items, fault: None })
}

fn does_not_hold(alloc: Global, loaded: &Loaded, fault: &CheckFault<'_>) -> Result<Told, NoMemory>
    ensures { IfOk result (λ told. told.why ≢ Why.BadWords) }
{
    let name = loaded.name.items.as_str();
    let text = &loaded.bytes.items;
    let at = position_of(text, fault.place.min(text.len()));
    let cause = &fault.cause;
    let why = if fault.is_unreadable() {
        Why::Unreadable
    } else {
        Why::Faulty
    };
    Ok(Told {
        why,
        line: format!(in alloc; "{name}:{at}: {cause}\n")?,
    })
}

// The file with slots in place of names, if all holds that must.
fn check_one<'i, 'a>(
    alloc: Global,
    sourced: &'i Sourced<'a>,
) -> Result<Result<Suite<'i, 'a>, Told>, NoMemory>
    ensures { IfOk result (λ found. MatchResult found (λ suite. IsChecked sourced.now suite) (λ told. DoesNotHold sourced.now told.why)) }
{
    match check(alloc, &sourced.sources, &sourced.file) {
        Ok(checked) => Ok(Ok(Suite { sourced, checked })),
        Err(CheckError::NoMemory) => Err(AllocError),
        Err(CheckError::Faulty(fault)) => Ok(Err(does_not_hold(alloc, sourced.loaded, &fault)?)),
    }
}

/// The files of which all holds that must.
pub(crate) fn check_all<'i, 'a>(
    alloc: Global,
    sourced: &'i [Sourced<'a>],
) -> Result<Looked<Suite<'i, 'a>>, NoMemory>
    ensures { IfOk result (λ looked. UpToFault IsChecked DoesNotHold sourced.now looked.items.items (why_of looked.fault)) }
{
    let mut items = Vec::new(alloc);
    for one in sourced {
        match check_one(alloc, one)? {
            Ok(suite) => items.push(suite)?,
            Err(told) => {
                let fault = Some(told);
                return Ok(Looked { items, fault });
            }
        }
    }
    Ok(Looked { items, fault: None })
}
