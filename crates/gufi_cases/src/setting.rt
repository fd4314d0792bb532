//! Files in memory, and what fails or changes in the runs over them.
use crate::bytes::read_line;
use crate::fault::Fault;
use crate::sweep::{Call, Kind, Sweep};
use gufi_help::{Channel, WatchedShelf};
use gufi_io::{MemShelf, MemSink, names_differ};
use std::alloc::Global;
use std::num::NonZeroU32;

// A byte that is another one.
#[derive(Clone, Copy)]
struct Change {
    file: usize,
    place: usize,
    value: u8,
}

// Where lines of bytes go.
#[derive(Clone, Copy)]
enum Target {
    // Behind this file, so many times.
    File { file: usize, count: u32 },
    // Behind the lines, each of which is all of a file in its turn.
    Lines,
}

#[derive(Drop)]
pub(crate) struct Setting {
    files: Vec<(String, Vec<u8>)>,
    target: Target,
    // The file that is each of the lines in its turn.
    each: Option<usize>,
    lines: Vec<Vec<u8>>,
    read: NonZeroU32,
    write: NonZeroU32,
    changes: Vec<Change>,
    sweep: Sweep,
    // How many bytes of the text are told.
    head: usize,
}

// The most bytes of a text.
const ROOM: usize = 32_768;

fn place_of(files: &[(String, Vec<u8>)], name: &str) -> Option<usize> {
    for (place, file) in files.iter().enumerate() {
        if file.0.as_str() == name {
            return Some(place);
        }
    }
    None
}

impl Setting {
    pub(crate) fn new(alloc: Global) -> Setting {
        Setting {
            files: Vec::new(alloc),
            target: Target::Lines,
            each: None,
            lines: Vec::new(alloc),
            read: NonZeroU32::new(65_536).unwrap(),
            write: NonZeroU32::new(5).unwrap(),
            changes: Vec::new(alloc),
            sweep: Sweep::ONCE,
            head: usize::MAX,
        }
    }

    // The place of a file of no bytes.
    fn empty_file(&mut self, alloc: Global, name: &str) -> Result<usize, Fault> {
        if let Some(file) = place_of(&self.files, name) {
            if let Some(named) = self.files.get_mut(file) {
                named.1.clear();
            }
            return Ok(file);
        }
        let file = self.files.len();
        self.files
            .push((String::from_str(alloc, name)?, Vec::new(alloc)))?;
        Ok(file)
    }

    pub(crate) fn put_file(&mut self, alloc: Global, name: &str, count: u32) -> Result<(), Fault> {
        let file = self.empty_file(alloc, name)?;
        if self.each == Some(file) {
            self.each = None;
        }
        self.target = Target::File { file, count };
        Ok(())
    }

    pub(crate) fn put_each(&mut self, alloc: Global, name: &str) -> Result<(), Fault> {
        self.each = Some(self.empty_file(alloc, name)?);
        self.lines.clear();
        self.target = Target::Lines;
        Ok(())
    }

    /// The lines that follow stand there so many times.
    pub(crate) fn repeat(&mut self, times: u32) {
        if let Target::File { count, .. } = &mut self.target {
            *count = times;
        }
    }

    pub(crate) fn put_line(&mut self, alloc: Global, line: &str) -> Result<(), Fault> {
        match self.target {
            Target::Lines => {
                let mut bytes = Vec::new(alloc);
                read_line(alloc, line, 1, &mut bytes)?;
                self.lines.push(bytes)?;
            }
            Target::File { file, count } => {
                let named = self.files.get_mut(file).ok_or(Fault::NoFile)?;
                for copy in 1..=count {
                    read_line(alloc, line, copy, &mut named.1)?;
                }
            }
        }
        Ok(())
    }

    pub(crate) fn put_pieces(&mut self, read: NonZeroU32, write: NonZeroU32) {
        self.read = read;
        self.write = write;
    }

    pub(crate) fn put_byte(&mut self, name: &str, place: usize, value: u8) -> Result<(), Fault> {
        let file = place_of(&self.files, name).ok_or(Fault::NoFile)?;
        self.changes.push(Change { file, place, value })?;
        Ok(())
    }

    pub(crate) fn put_cut(&mut self, name: &str, from: usize, to: usize) -> Result<(), Fault> {
        let file = place_of(&self.files, name).ok_or(Fault::NoFile)?;
        self.sweep = Sweep {
            kind: Kind::Cut { file },
            from,
            to,
        };
        Ok(())
    }

    pub(crate) fn put_fault(&mut self, call: Call, from: usize, to: usize) {
        self.sweep = Sweep {
            kind: Kind::Fail(call),
            from,
            to,
        };
    }

    pub(crate) fn put_head(&mut self, head: usize) {
        self.head = head;
    }

    /// Forgets what held for one run.
    pub(crate) fn forget(&mut self, alloc: Global) {
        self.changes = Vec::new(alloc);
        self.sweep = Sweep::ONCE;
        self.head = usize::MAX;
    }

    /// What is told of a text.
    pub(crate) fn head_of<'a>(&self, text: &'a [u8]) -> &'a [u8] {
        text.split_at(self.head.min(text.len())).0
    }

    pub(crate) fn sweep(&self) -> Sweep {
        match (self.sweep.kind, self.each) {
            (Kind::Once, Some(file)) => Sweep {
                kind: Kind::Line { file },
                from: 1,
                to: self.lines.len(),
            },
            _ => self.sweep,
        }
    }

    // The numbers of the calls that fail in a run.
    fn bad_calls(&self, alloc: Global, call: Call, at: usize) -> Result<Vec<u64>, Fault> {
        let mut bad = Vec::new(alloc);
        if self.sweep.kind == Kind::Fail(call) {
            bad.push(at as u64)?;
        }
        Ok(bad)
    }

    // What a file holds in a run, before its changes.
    fn bytes_at<'a>(&'a self, file: usize, bytes: &'a [u8], at: usize) -> &'a [u8] {
        match self.sweep().kind {
            Kind::Line { file: each } if each == file => match self
                .lines
                .get(at.saturating_sub(1))
            {
                Some(line) => line.as_slice(),
                None => &[],
            },
            Kind::Cut { file: cut } if cut == file => bytes.split_at(at.min(bytes.len())).0,
            _ => bytes,
        }
    }

    fn change(&self, file: usize, bytes: &mut [u8]) -> Result<(), Fault> {
        for change in self.changes.iter() {
            if change.file == file {
                *bytes.get_mut(change.place).ok_or(Fault::NoByte)? = change.value;
            }
        }
        Ok(())
    }

    fn files_at(&self, alloc: Global, at: usize) -> Result<Vec<(String, Vec<u8>)>, Fault> {
        let mut files = Vec::new(alloc);
        for (file, (name, bytes)) in self.files.iter().enumerate() {
            let mut bytes = self.bytes_at(file, bytes, at).to_vec(alloc)?;
            self.change(file, &mut bytes)?;
            files.push((name.clone()?, bytes))?;
        }
        Ok(files)
    }

    /// The shelf of a run.
    pub(crate) fn shelf_at(
        &self,
        alloc: Global,
        at: usize,
    ) -> Result<WatchedShelf<MemShelf>, Fault> {
        let opens = self.bad_calls(alloc, Call::Open, at)?;
        let reads = self.bad_calls(alloc, Call::Read, at)?;
        let files = self.files_at(alloc, at)?;
        if !names_differ(&files) {
            drop(files);
            return Err(Fault::DoubleName);
        }
        let shelf = MemShelf::new(files, self.read.get(), opens, reads);
        Ok(WatchedShelf::new(alloc, shelf))
    }

    /// A sink of a run, whose writes are these calls.
    pub(crate) fn sink_at(
        &self,
        alloc: Global,
        call: Call,
        at: usize,
    ) -> Result<Channel<MemSink>, Fault> {
        let writes = self.bad_calls(alloc, call, at)?;
        let room = vec![in alloc; 0; ROOM]?;
        Ok(Channel::To(MemSink::new(room, self.write.get(), writes)))
    }
}
