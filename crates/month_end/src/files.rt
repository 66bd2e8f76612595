use anyhow::anyhow;
use format::MOST_READ;
use input::read_up_to;
use std::fs::File;
use std::io;

/// The bytes of a file, as far as a package may go.
fn read_package_file(rt: &HostRuntime, name: &str) -> io::Result<Vec<u8>> {
    let mut file = File::open(rt, name)?;
    // a package has a largest size, and only what came goes to the heap
    let mut bytes = [0u8; MOST_READ];
    let n = read_up_to(&mut file, &mut bytes)?;
    Ok(Vec::from_slice(rt.alloc(), &bytes[0..n])?)
}

/// The package of each file. One that cannot be read ends the month before it begins.
pub(crate) fn read_packages(rt: &HostRuntime, names: &[String]) -> anyhow::Result<Vec<Vec<u8>>> {
    let mut packages = Vec::new(rt.alloc());
    for name in names {
        let package = read_package_file(rt, name.as_str()).map_err(|e| anyhow!("{name}: {e}"))?;
        packages.push(package)?;
    }
    Ok(packages)
}
