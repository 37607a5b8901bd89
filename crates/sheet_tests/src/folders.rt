// What folders in memory and on the disk answer.
use book_files::{CalmFolder, DiskFolder, FileMap, Folder, LoadError, MemFolder};
use std::alloc::{AllocError, Global};
use std::fs;
use std::test::Fail;

// Puts a file into the map.
fn put(alloc: Global, files: &mut FileMap, name: &str, content: &[u8]) -> Result<(), AllocError> {
    let mut bytes = Vec::new(alloc);
    bytes.extend_from_slice(content)?;
    files.put(name, bytes)
}

// A folder with one file of two bytes.
fn files(alloc: Global) -> Result<FileMap, AllocError> {
    let mut files = FileMap::new(alloc)?;
    put(alloc, &mut files, "a.csv", b"1")?;
    put(alloc, &mut files, "a.csv", b"12")?;
    Ok(files)
}

// Whether a load gives so many bytes, or fails so.
fn loads<F: Folder>(
    alloc: Global,
    folder: &mut F,
    name: &str,
    limit: usize,
    expected: Result<usize, LoadError>,
) -> bool {
    match folder.load(alloc, name, limit) {
        Ok(bytes) => expected == Ok(bytes.len()),
        Err(error) => expected == Err(error),
    }
}

// Whether a folder whose calls never fail loads its file up to the limit.
fn calm_loads(alloc: Global, calm: &mut CalmFolder) -> bool {
    loads(alloc, calm, "a.csv", 2, Ok(2))
        && loads(alloc, calm, "a.csv", 1, Err(LoadError::TooLong))
        && loads(alloc, calm, "b.csv", 1, Err(LoadError::Missing))
}

// Whether a folder whose second call fails loads its file, and then finds none.
fn second_fails(alloc: Global, folder: &mut MemFolder) -> bool {
    loads(alloc, folder, "a.csv", 2, Ok(2))
        && loads(alloc, folder, "b.csv", 2, Err(LoadError::Failed))
        && loads(alloc, folder, "b.csv", 2, Err(LoadError::Missing))
}

#[test]
fn loads_from_memory(rt: HostRuntime) -> Result<(), Fail> {
    let mut calm = CalmFolder::new(files(rt.alloc())?);
    assert!(rt; calm_loads(rt.alloc(), &mut calm));
    Ok(())
}

#[test]
fn loads_from_memory_up_to_a_fault(rt: HostRuntime) -> Result<(), Fail> {
    let mut folder = MemFolder::new(files(rt.alloc())?, vec![in rt.alloc(); 2u64]?);
    assert!(rt; second_fails(rt.alloc(), &mut folder));
    Ok(())
}

// Whether a folder on the disk loads its file up to the limit.
fn disk_loads<F: Folder>(alloc: Global, disk: &mut F) -> bool {
    loads(alloc, disk, "a.csv", 3, Ok(3))
        && loads(alloc, disk, "a.csv", 2, Err(LoadError::TooLong))
        && loads(alloc, disk, "b.csv", 3, Err(LoadError::Missing))
        && loads(alloc, disk, ".", 3, Err(LoadError::Failed))
}

#[test]
fn loads_from_the_disk(rt: HostRuntime) -> Result<(), Fail> {
    fs::write(&rt, "a.csv", "1,2")?;
    let mut disk = DiskFolder::new(&rt);
    assert!(rt; disk_loads(rt.alloc(), &mut disk));
    fs::remove_file(&rt, "a.csv")?;
    Ok(())
}
