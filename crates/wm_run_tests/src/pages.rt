use ic_base::NoMemory;
use std::alloc::Global;
use std::process::Abort;
use std::test::*;
use wm_pages::*;

fn two_pages(alloc: Global) -> Result<Pages, NoMemory> {
    let mut pages = Pages::new(alloc);
    pages.grow(2)?;
    Ok(pages)
}

fn write(rt: &impl Abort, pages: &mut Pages, at: usize, source: &[u8]) -> Result<(), NoMemory> {
    let len = pages.as_slice().len();
    assert!(rt; source.len() <= len);
    assert!(rt; at <= len - source.len());
    pages.write(at, source)
}

fn grow(rt: &impl Abort, pages: &mut Pages) -> Result<(), NoMemory> {
    assert!(rt; pages.pages() < 256);
    pages.grow(1)
}

fn begin(rt: &impl Abort, pages: &mut Pages) {
    assert_eq!(rt; pages.saved(), 0);
    pages.begin();
}

fn three(pages: &Pages, at: usize) -> [Option<u8>; 3] {
    let bytes = pages.as_slice();
    if at > usize::MAX - 2 {
        return [None; 3];
    }
    [
        bytes.get(at).copied(),
        bytes.get(at + 1).copied(),
        bytes.get(at + 2).copied(),
    ]
}

/// Writes on both sides of a range's end and of the end of what was there, a range written twice, and
/// growth.
fn changed<R: Abort + AllocGlobal>(rt: &R) -> Result<Pages, NoMemory> {
    let mut pages = two_pages(rt.alloc())?;
    write(rt, &mut pages, 4_095, &[1, 2])?;
    begin(rt, &mut pages);
    write(rt, &mut pages, 4_095, &[])?;
    assert_eq!(rt; pages.saved(), 0);
    write(rt, &mut pages, 4_095, &[3, 4])?;
    write(rt, &mut pages, 4_094, &[5, 6])?;
    assert_eq!(rt; pages.saved(), 2);
    grow(rt, &mut pages)?;
    write(rt, &mut pages, 131_071, &[7, 8])?;
    Ok(pages)
}

#[test]
fn undone(rt: HostRuntime) -> Result<(), NoMemory> {
    let mut pages = changed(&rt)?;
    assert_eq!(rt; pages.saved(), 3);
    assert_eq!(rt; three(&pages, 4_094), [Some(5), Some(6), Some(4)]);
    assert_eq!(rt; three(&pages, 131_071), [Some(7), Some(8), Some(0)]);
    pages.undo();
    assert_eq!(rt; [pages.pages(), pages.saved()], [2, 0]);
    assert_eq!(rt; three(&pages, 4_094), [Some(0), Some(1), Some(2)]);
    assert_eq!(rt; three(&pages, 131_071), [Some(0), None, None]);
    Ok(())
}

// What was kept is what the next message undoes to.
#[test]
fn kept(rt: HostRuntime) -> Result<(), NoMemory> {
    let mut pages = two_pages(rt.alloc())?;
    begin(&rt, &mut pages);
    write(&rt, &mut pages, 0, &[1])?;
    pages.keep();
    begin(&rt, &mut pages);
    write(&rt, &mut pages, 0, &[2])?;
    pages.undo();
    assert_eq!(rt; pages.as_slice().first(), Some(&1));
    Ok(())
}
