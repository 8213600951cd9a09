// Where the answers go: the standard output, and the progress to the standard error.
use dayrun::teller::Outlet;
use std::io;
use std::io::Write;

#[derive(Drop)]
pub struct Console<'r> {
    pub rt: &'r HostRuntime,
    pub progress: bool,
}

impl Outlet for Console<'_> {
    fn put(&mut self, text: &[u8]) -> io::Result<()> {
        self.rt.stdout().write_all(text)
    }

    fn reached(&mut self, line: u64) -> io::Result<()> {
        if self.progress {
            eprintln!(self.rt; "uplift: {line} lines are read")?;
        }
        Ok(())
    }
}
