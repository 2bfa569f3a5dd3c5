ghost use Rattle.std.specs.Prelude.{◌≡◌, ◌≢◌, ◌≤◌, ℕ, Ok, Err, IfOk, IfErr, IfSome, take, vec_len};
ghost use Rattle.std.specs.IoError.{error_kind};
ghost use Rattle.tars_base.specs.Causes.{HasCauseOf};
ghost use Rattle.tars_base.specs.Contents.{IsPrefixOfFile};

use crate::opener::Opener;
use std::alloc::Global;
use std::io;
use std::io::{ErrorKind, Read};
use tars_base::{Files, ReadFault};

/// The files of an opener. Their faults are counted here.
#[derive(Drop)]
pub struct RealFiles<O> {
    opener: O,
    fault_count: u64,
}

/// The first `most` bytes that a source has left, or all of them if it has fewer.
fn read_prefix<R: Read + Drop>(alloc: Global, source: R, most: usize) -> io::Result<Vec<u8>>
    ensures bytes { IfOk result (λ bytes. IfSome (R.remaining source) (λ left. bytes.items ≡ take most left)) }
    ensures within { IfOk result (λ bytes. vec_len bytes ≤ most) }
{
    let mut bytes = Vec::new(alloc);
    source.take(most as u64).read_to_end(&mut bytes)?;
    bytes.truncate(most);
    Ok(bytes)
}

impl<O: Opener> RealFiles<O> {
    pub fn new(opener: O) -> RealFiles<O>
        ensures opener { result.opener ≡ opener }
        ensures no_faults { result.fault_count ≡ 0 }
    {
        RealFiles {
            opener,
            fault_count: 0,
        }
    }

    fn open_and_read(&self, alloc: Global, name: &str, most: usize) -> io::Result<Vec<u8>>
        ensures bytes { IfOk result
            (λ bytes. IsPrefixOfFile (O.contents self.now.opener) name.now most bytes.items) }
        ensures within { IfOk result (λ bytes. vec_len bytes ≤ most) }
    {
        let source = self.opener.open(name)?;
        read_prefix(alloc, source, most)
    }

    /// What a read gives to the caller. One that failed is counted; want of memory is no fault of the
    /// files.
    fn counted(&mut self, read: io::Result<Vec<u8>>) -> Result<Vec<u8>, ReadFault>
        ensures ok { IfOk read (λ bytes. result ≡ Ok bytes) }
        ensures memory { IfErr read (λ e. error_kind e ≡ ErrorKind.OutOfMemory → result ≡ Err ReadFault.Memory) }
        ensures failed { IfErr read (λ e. error_kind e ≢ ErrorKind.OutOfMemory → result ≡ Err ReadFault.Failed) }
        ensures cause { HasCauseOf ReadFault.Failed self.old.fault_count self.new.fault_count result }
        ensures same { self.new.opener ≡ self.old.opener }
    {
        match read {
            Ok(bytes) => Ok(bytes),
            Err(error) if error.kind() == ErrorKind::OutOfMemory => Err(ReadFault::Memory),
            Err(_) => {
                self.fault_count = self.fault_count.saturating_add(1);
                Err(ReadFault::Failed)
            }
        }
    }
}

impl<O: Opener> Files for RealFiles<O> {
    ghost contents = { λ files. O.contents files.opener };

    ghost faults = { λ files. files.fault_count };

    fn read(&mut self, alloc: Global, name: &str, most: usize) -> Result<Vec<u8>, ReadFault> {
        let read = self.open_and_read(alloc, name, most);
        self.counted(read)
    }
}

#[cfg(test)]
mod tests {
    use super::*;
    use crate::opener::System;
    use std::fs;
    use std::test::Fail;

    #[test]
    fn the_prefix_of_a_file_is_read(rt: HostRuntime) -> Result<(), Fail> {
        let alloc = rt.alloc();
        let path = "real_files_test.txt";
        fs::write(&rt, path, "module M")?;
        let mut files = RealFiles::new(System::new(&rt));
        let cases: [(&str, usize, Result<&[u8], ReadFault>); 3] = [
            (path, 6, Ok(b"module")),
            (path, 99, Ok(b"module M")),
            ("no_such_file.txt", 99, Err(ReadFault::Failed)),
        ];
        for (name, most, wanted) in cases {
            match (files.read(alloc, name, most), wanted) {
                (Ok(bytes), Ok(wanted)) => assert_eq!(rt;
                    bytes.as_slice(),
                    wanted,
                    "at {name} {most}"
                ),
                (Err(fault), wanted) => assert_eq!(rt; Err(fault), wanted, "at {name} {most}"),
                (Ok(_), Err(_)) => panic!(rt; "a read of {name} should fail"),
            }
        }
        fs::remove_file(&rt, path)?;
        assert_eq!(rt; files.fault_count, 1);
        Ok(())
    }
}
