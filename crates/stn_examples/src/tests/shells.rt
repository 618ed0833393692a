// What a shell answers is seen before it reads on.
use std::alloc::Global;
use std::io::{self, Write};
use stn_device::{Counted, Ear};
use stn_line::{SiteLog, line};
use stn_logs::answer;
use stn_records::Site;
use stn_shell::run_shell;
use stn_store::MemoryStore;

// A writer that counts its bytes, those that were flushed, and how often some were.
#[derive(Drop)]
struct Pages {
    bytes: u64,
    flushed: u64,
    pages: u64,
}

impl Write for Pages {
    fn write(&mut self, buf: &[u8]) -> io::Result<usize> {
        self.bytes = self.bytes.saturating_add(buf.len() as u64);
        Ok(buf.len())
    }

    fn flush(&mut self) -> io::Result<()> {
        if self.flushed < self.bytes {
            self.pages = self.pages.saturating_add(1);
        }
        self.flushed = self.bytes;
        Ok(())
    }
}

// A store with the log of a bare plan of one step.
fn one_log(alloc: Global) -> Option<MemoryStore<Global>> {
    let mut store = MemoryStore::new(alloc);
    let line = line(alloc, &["stn", "bare", "t.log", "1", "1"]).ok()?;
    let made = answer(alloc, &mut store, &line).is_ok();
    drop(line);
    if made {
        Some(store)
    } else {
        drop(store);
        None
    }
}

// What a shell wrote for these lines.
fn pages_of(alloc: Global, lines: &[u8]) -> Option<Pages> {
    let mut store = one_log(alloc)?;
    let log = SiteLog {
        name: "t.log",
        site: Site::new(1)?,
    };
    let mut reader = Counted::new(lines);
    let mut err = Counted::new(Ear::new(alloc));
    let mut out = Counted::new(Pages {
        bytes: 0,
        flushed: 0,
        pages: 0,
    });
    let _ = run_shell(alloc, &mut store, &log, &mut reader, &mut out, &mut err);
    Some(out.into_inner())
}

#[test]
fn each_answer_of_a_shell_is_flushed(rt: HostRuntime) {
    match pages_of(
        rt.alloc(),
        b"report\nadd s1 e1 --lo=5 --hi=5\nnext 9 9\nnext 0\n",
    ) {
        Some(written) => {
            assert!(rt; written.pages == 4);
            assert!(rt; written.flushed == written.bytes && written.bytes > 40);
        }
        None => assert!(rt; false),
    }
}
