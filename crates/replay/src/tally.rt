// What was run, and what came of it.
ghost use Rattle.std.specs.Prelude.{◌<◌};

use crate::case::Judged;
use std::io;

// The kinds of cases, with their names.
const KINDS: [(usize, &str); 14] = [
    (1, "uint_code_len"),
    (2, "sint_code_len"),
    (3, "put_uint"),
    (4, "put_sint"),
    (5, "put_nbits"),
    (16, "quant_factor"),
    (17, "quant_offset"),
    (18, "forward_quant"),
    (19, "inverse_quant"),
    (20, "default_quant_matrix"),
    (32, "oned_analysis"),
    (33, "dwt"),
    (34, "long row"),
    (48, "job"),
];

#[derive(Clone, Copy)]
pub(crate) struct Tally {
    cases: u64,
    malformed: u64,
    run: [u64; 64],
    differ: [u64; 64],
}

impl Tally {
    pub(crate) fn new() -> Tally {
        Tally {
            cases: 0,
            malformed: 0,
            run: [0; 64],
            differ: [0; 64],
        }
    }

    // One case more, and what came of it. A kind from 64 on is always malformed.
    pub(crate) fn count(&mut self, rt: &impl Print, kind: u64, v: Judged) -> io::Result<()> {
        match v {
            Ok(same) if kind < 64 => self.ran(rt, kind as usize, same),
            _ => self.broken(rt, kind),
        }
    }

    // One case more that is malformed.
    pub(crate) fn broken(&mut self, rt: &impl Print, kind: u64) -> io::Result<()> {
        self.cases = self.cases.saturating_add(1);
        self.malformed = self.malformed.saturating_add(1);
        println!(rt; "malformed case {} kind {kind}", self.cases)
    }

    // One case more that was run.
    fn ran(&mut self, rt: &impl Print, kind: usize, same: bool) -> io::Result<()>
        requires { kind < 64 }
    {
        self.cases = self.cases.saturating_add(1);
        self.run[kind] = self.run[kind].saturating_add(1);
        if same {
            return Ok(());
        }
        self.differ[kind] = self.differ[kind].saturating_add(1);
        println!(rt; "differs case {} kind {kind}", self.cases)
    }

    fn line(&self, rt: &impl Print, name: &str, kind: usize) -> io::Result<()>
        requires { kind < 64 }
    {
        println!(rt;
            "{name}: {} run, {} differ",
            self.run[kind], self.differ[kind]
        )
    }

    pub(crate) fn print(&self, rt: &impl Print) -> io::Result<()> {
        for (kind, name) in &KINDS {
            self.line(rt, name, *kind)?;
        }
        println!(rt; "malformed: {}", self.malformed)
    }
}
