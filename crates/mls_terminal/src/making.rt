//! Files that are made in a folder, where none of them is there.
use crate::files::make_file;
use crate::output::{NO_MEMORY, refused};
use crate::progress::Progress;
use std::alloc::{AllocError, Global};
use std::io::ErrorKind;
use std::process::ExitCode;
use std::{fs, io};

/// A file that is made: its name, and its text.
#[derive(Clone, Copy)]
pub struct NewFile<'a> {
    pub name: &'a str,
    pub text: &'a str,
}

/// The path of a file in a folder.
fn path_in(alloc: Global, folder: &str, name: &str) -> Result<String, AllocError> {
    let mut path = String::new(alloc);
    path.push_str(folder)?;
    path.push_str("/")?;
    path.push_str(name)?;
    Ok(path)
}

/// Whether nothing has this name.
fn is_free(rt: &HostRuntime, path: &str) -> bool {
    match fs::symlink_metadata(rt, path) {
        Ok(found) => {
            drop(found);
            false
        }
        Err(error) => error.kind() == ErrorKind::NotFound,
    }
}

/// Tells why a file or a folder isn't made.
fn unmade(rt: &HostRuntime, path: &str, error: io::Error) -> ExitCode {
    let _ = eprintln!(rt; "mls: {path}: {error}");
    ExitCode::from(1)
}

/// Sees that nothing has a name that is needed.
fn look_for(rt: &HostRuntime, path: &str) -> Result<(), ExitCode> {
    if is_free(rt, path) {
        return Ok(());
    }
    let _ = eprintln!(rt; "mls: {path}: there already, and nothing is written");
    Err(ExitCode::from(1))
}

/// Makes a file, and tells its name.
fn make(rt: &HostRuntime, path: &str, text: &str) -> Result<(), ExitCode> {
    match make_file(rt, path, text) {
        Ok(()) => {
            let _ = println!(rt; "{path}");
            Ok(())
        }
        Err(error) => Err(unmade(rt, path, error)),
    }
}

/// What is done with each file.
#[derive(Clone, Copy)]
enum Deed {
    Look,
    Make,
}

/// Looks for a file in a folder, or makes it.
fn visit(rt: &HostRuntime, folder: &str, file: &NewFile<'_>, deed: Deed) -> Result<(), ExitCode> {
    let Ok(path) = path_in(rt.alloc(), folder, file.name) else {
        return Err(refused(rt, NO_MEMORY, 1));
    };
    let done = match deed {
        Deed::Look => look_for(rt, &path),
        Deed::Make => make(rt, &path, file.text),
    };
    drop(path);
    done
}

/// Looks for all files in a folder, or makes them.
fn visit_all(
    rt: &HostRuntime,
    folder: &str,
    files: &[NewFile<'_>],
    deed: Deed,
) -> Result<(), ExitCode> {
    for file in files {
        visit(rt, folder, file, deed)?;
    }
    Ok(())
}

/// Makes a folder, unless it is there.
fn make_folder(rt: &HostRuntime, folder: &str) -> Result<(), ExitCode> {
    match fs::create_dir(rt, folder) {
        Ok(()) => Ok(()),
        Err(error) if error.kind() == ErrorKind::AlreadyExists => Ok(()),
        Err(error) => Err(unmade(rt, folder, error)),
    }
}

/// Makes files in a folder, which is made where it isn't there, and tells their names. No file that is there is
/// touched: where one has the name of a file, none is made.
///
/// # Errors
/// The status to end with: it is told why not all files are made.
pub fn make_files(
    progress: &mut Progress<'_>,
    folder: &str,
    files: &[NewFile<'_>],
) -> Result<(), ExitCode> {
    progress.end();
    let rt = progress.rt();
    make_folder(rt, folder)?;
    visit_all(rt, folder, files, Deed::Look)?;
    visit_all(rt, folder, files, Deed::Make)
}
