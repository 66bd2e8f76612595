use crate::spelling::Room;
use crate::tables::Tables;

/// Prints what reading a package into tables of these lengths answers.
pub(crate) fn tell(rt: &HostRuntime, room: Room, bytes: &[u8]) -> anyhow::Result<()> {
    let heap = rt.alloc();
    let mut tables = Tables::new(heap, room)?;
    match tables.read(bytes) {
        Ok(found) => {
            let same = tables.written_alike(heap, &found, bytes)?;
            println!(rt;
                "{} constraints, {} points, {} shift factors, {} holdings; written back: {same}",
                found.constraints, found.points, found.factors, found.holdings
            )?;
        }
        Err(e) => println!(rt; "{e}")?,
    }
    Ok(())
}
