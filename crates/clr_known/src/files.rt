//! Files whose bytes are known.
ghost use Rattle.std.specs.Prelude.{◌≡◌, ◌≢◌, Ok, false, option_map, true};
ghost use Rattle.clr_known.specs.Known.{bytes_among};

use clr_edge::paths::Opens;
use clr_stream::Counted;
use std::alloc::{AllocError, Global};
use std::io;
use std::io::Read;

/// A path, and what the file there has.
pub type File<'f> = (&'f str, &'f [u8]);

/// Files, with their paths.
#[derive(Drop)]
pub struct KnownFiles<'f> {
    pub all: &'f [File<'f>],
}

/// What is left of a file, or of none.
#[derive(Drop)]
pub struct Bytes<'f> {
    pub left: Option<&'f [u8]>,
}

impl<'f> Read for Bytes<'f> {
    ghost use Rattle.std.specs.Prelude.{option_map};

    ghost remaining = { λ bytes. option_map (λ left. left.now) bytes.left };

    fn read(&mut self, buf: &mut [u8]) -> io::Result<usize> {
        match &mut self.left {
            Some(bytes) => bytes.read(buf),
            None => Err(io::ErrorKind::NotFound.into()),
        }
    }
}

impl<'a, 'f> Opens<'a> for KnownFiles<'f> {
    ghost use Rattle.std.specs.Prelude.{◌≡◌, ◌≢◌};
    ghost use Rattle.clr_known.specs.Known.{bytes_among};

    type File = Counted<Bytes<'f>>;

    ghost bytes_at = { λ files path. bytes_among files.all.now path };

    ghost owns = { λ _ database path. path ≡ database };

    ghost spares = { λ _ database path. path ≢ database };

    fn at(&self, path: &'a str) -> Counted<Bytes<'f>> {
        let left = bytes_of(self.all, path);
        Counted::new(Bytes { left })
    }

    fn is_own(&self, _alloc: Global, database: &str, path: &str) -> Result<bool, AllocError>
        ensures owns { result ≡ Ok true → path.now ≡ database.now }
        ensures spares { result ≡ Ok false → path.now ≢ database.now }
    {
        Ok(path == database)
    }
}

/// What the file at a path has.
fn bytes_of<'f>(files: &'f [File<'f>], path: &str) -> Option<&'f [u8]>
    ensures { option_map (λ bytes. bytes.now) result ≡ bytes_among files.now path.now }
{
    match files.iter().find(|file| file.0 == path) {
        Some(file) => Some(file.1),
        None => None,
    }
}
