// The file that the area is stored in.
use depot_io::failed;
use std::fs;
use std::fs::OpenFile;
use std::io::{Result, Write};
use std::rt::Files;

// The bytes go into an open file, and on to the disk.
fn brought(file: &mut (impl Write + OpenFile), bytes: &[u8]) -> Result<()> {
    file.write_all(bytes)?;
    file.sync_all()
}

// Whether all of the bytes went into an open file, which is then closed; if not, standard error says why.
fn written(mut file: impl Write + OpenFile + Drop, bytes: &[u8]) -> bool {
    if let Err(error) = brought(&mut file, bytes) {
        failed(b"area.out.new", error);
        return false;
    }
    true
}

// The area goes into a file of its own, which takes the name area.out only when it is whole. So an area.out is never half
// of one area, and nothing of an older and longer one is left behind it.
fn put(rt: &impl Files, area: &[u8]) -> bool {
    let file = match fs::create(rt, "area.out.new") {
        Ok(file) => file,
        Err(error) => {
            failed(b"area.out.new", error);
            return false;
        }
    };
    if !written(file, area) {
        let _ = fs::remove_file(rt, "area.out.new");
        return false;
    }
    if let Err(error) = fs::rename(rt, "area.out.new", "area.out") {
        failed(b"area.out", error);
        let _ = fs::remove_file(rt, "area.out.new");
        return false;
    }
    true
}

// Whether the folder is on the disk with the name that the file has taken.
fn kept(folder: &impl OpenFile) -> bool {
    if let Err(error) = folder.sync_all() {
        failed(b"the folder of area.out", error);
        return false;
    }
    true
}

// Whether the area is in area.out, and will be there after a power cut; if not, standard error says why. A folder that
// cannot be opened is found before anything is written.
pub(crate) fn store(rt: &impl Files, area: &[u8]) -> bool {
    match fs::open(rt, ".") {
        Ok(folder) => put(rt, area) && kept(&folder),
        Err(error) => {
            failed(b"the folder of area.out", error);
            false
        }
    }
}
