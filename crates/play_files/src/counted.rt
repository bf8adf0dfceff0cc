//! A volume that counts its syncs and writes.
use tc_base::Fault;
use tc_io::Volume;

/// Another volume, and how many syncs and writes it was asked for, those of copies too.
#[derive(Drop)]
pub struct Counted<V: Volume> {
    pub vol: V,
    pub syncs: u64,
    pub writes: u64,
}

impl<V: Volume> Volume for Counted<V> {
    ghost tells = { V.tells };

    ghost calls = { λ s. V.calls s.vol };

    ghost bound = { λ s. V.bound s.vol };

    ghost names = { λ s. V.names s.vol };

    ghost faults = { λ s. V.faults s.vol };

    ghost now_is_image = { λ s told. V.now_is_image s.vol told };

    ghost copy_is_image = { λ s label told. V.copy_is_image s.vol label told };

    fn bind(&mut self, name: &str) -> Result<(), Fault> {
        self.vol.bind(name)
    }

    fn len(&mut self, file: u32) -> Result<u64, Fault> {
        self.vol.len(file)
    }

    fn read(&mut self, file: u32, at: u64, into: &mut [u8]) -> Result<(), Fault> {
        self.vol.read(file, at, into)
    }

    fn write(&mut self, file: u32, at: u64, bytes: &[u8]) -> Result<(), Fault> {
        self.writes = self.writes.saturating_add(1);
        self.vol.write(file, at, bytes)
    }

    fn cut(&mut self, file: u32, len: u64) -> Result<(), Fault> {
        self.vol.cut(file, len)
    }

    fn sync(&mut self, file: u32) -> Result<(), Fault> {
        self.syncs = self.syncs.saturating_add(1);
        self.vol.sync(file)
    }

    fn bind_copy(&mut self, label: &[u8]) -> Result<(), Fault> {
        self.vol.bind_copy(label)
    }

    fn copy_len(&mut self, file: u32) -> Result<u64, Fault> {
        self.vol.copy_len(file)
    }

    fn copy_read(&mut self, file: u32, at: u64, into: &mut [u8]) -> Result<(), Fault> {
        self.vol.copy_read(file, at, into)
    }

    fn copy_write(&mut self, file: u32, at: u64, bytes: &[u8]) -> Result<(), Fault> {
        self.writes = self.writes.saturating_add(1);
        self.vol.copy_write(file, at, bytes)
    }

    fn copy_cut(&mut self, file: u32, len: u64) -> Result<(), Fault> {
        self.vol.copy_cut(file, len)
    }

    fn copy_sync(&mut self, file: u32) -> Result<(), Fault> {
        self.syncs = self.syncs.saturating_add(1);
        self.vol.copy_sync(file)
    }

    fn end_copy(&mut self) {
        self.vol.end_copy();
    }
}
