//! Where devices stand: in memory, in pages, in files.
use crate::report::compare::Wrong;
use crate::session::devices::{Devices, MemDevices, Texts, in_memory};
use bx_image::{Device, FileImage, MemImage, NoMemory, PagedImage, SystemFile};
use bx_journal_store::{FileText, MemText};
use std::alloc::Global;
use std::fs::{self, File};

/// Where devices stand.
pub trait Place<D, T> {
    /// Devices that hold this.
    fn devices(&self, alloc: Global, texts: Texts<'_>) -> Result<Devices<D, T>, Wrong>;

    /// The same devices, found again.
    fn again(&self, devices: Devices<D, T>) -> Result<Devices<D, T>, Wrong>;
}

/// All in memory.
#[derive(Drop)]
pub struct Memory;

impl Place<MemImage, MemText> for Memory {
    fn devices(&self, alloc: Global, texts: Texts<'_>) -> Result<MemDevices, Wrong> {
        in_memory(alloc, texts)
    }

    fn again(&self, devices: MemDevices) -> Result<MemDevices, Wrong> {
        Ok(devices)
    }
}

/// The image in pages.
#[derive(Drop)]
pub struct Pages;

fn paged(alloc: Global, bytes: &[u8]) -> Result<PagedImage, NoMemory> {
    let mut image = PagedImage::new(alloc);
    image.reserve(bytes.len() as u64)?;
    let _ = image.write_at(0, bytes);
    Ok(image)
}

impl Place<PagedImage, MemText> for Pages {
    fn devices(
        &self,
        alloc: Global,
        texts: Texts<'_>,
    ) -> Result<Devices<PagedImage, MemText>, Wrong> {
        let Devices { journal, redo, .. } = in_memory(alloc, texts)?;
        let image = paged(alloc, texts.image)?;
        Ok(Devices {
            image,
            journal,
            redo,
        })
    }

    fn again(
        &self,
        devices: Devices<PagedImage, MemText>,
    ) -> Result<Devices<PagedImage, MemText>, Wrong> {
        Ok(devices)
    }
}

/// All in files of the folder that the program is run in, which are opened anew each time.
#[derive(Drop)]
pub struct Files<'a> {
    rt: &'a HostRuntime,
}

const IMAGE: &str = "test_cases.img";

const JOURNAL: &str = "test_cases.img.bxj";

const REDO: &str = "test_cases.img.bxj.redo";

impl<'a> Files<'a> {
    pub fn new(rt: &'a HostRuntime) -> Self {
        Files { rt }
    }

    fn open(&self, name: &str) -> Result<SystemFile, Wrong> {
        let file = File::options().read(true).write(true).open(self.rt, name)?;
        let mut file = SystemFile::new(file);
        file.waits = false;
        Ok(file)
    }

    fn opened(&self) -> Result<Devices<FileImage, FileText>, Wrong> {
        Ok(Devices {
            image: FileImage::new(self.open(IMAGE)?),
            journal: FileText::new(self.open(JOURNAL)?),
            redo: FileText::new(self.open(REDO)?),
        })
    }
}

/// Takes the files away, where there are any.
pub fn clear(rt: &HostRuntime) {
    let _ = fs::remove_file(rt, IMAGE);
    let _ = fs::remove_file(rt, JOURNAL);
    let _ = fs::remove_file(rt, REDO);
}

impl Place<FileImage, FileText> for Files<'_> {
    fn devices(&self, _: Global, texts: Texts<'_>) -> Result<Devices<FileImage, FileText>, Wrong> {
        fs::write(self.rt, IMAGE, texts.image)?;
        fs::write(self.rt, JOURNAL, texts.journal)?;
        fs::write(self.rt, REDO, texts.redo)?;
        self.opened()
    }

    fn again(
        &self,
        _: Devices<FileImage, FileText>,
    ) -> Result<Devices<FileImage, FileText>, Wrong> {
        self.opened()
    }
}
