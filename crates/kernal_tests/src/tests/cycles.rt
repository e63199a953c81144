//! The cycles of a computer's processor: how they pass, which of them the screen steals, and the bus's moments that they come to.

/// A computer with a KERNAL. As long as a C64 shows its screen, each eighth line of it is a bad line, in which the processor
/// stands still.
#[derive(Clone, Copy, Drop)]
pub enum Computer {
    /// A C64 for PAL.
    Pal,
    /// The same with its screen off.
    DarkPal,
    /// A C64 for NTSC.
    Ntsc,
    /// The same with its screen off.
    DarkNtsc,
    /// A VIC-20 for PAL, whose screen steals nothing.
    Vic,
}

/// The cycles in a second of a C64 for PAL.
const PAL: u64 = 985_248;

/// The cycles in a second of a C64 for NTSC.
const NTSC: u64 = 1_022_727;

/// The cycles in a second of a VIC-20 for PAL.
const VIC: u64 = 1_108_405;

/// From one bad line to the next: eight lines of 63 cycles for PAL.
const PAL_LINES: u64 = 504;

/// And for NTSC, eight lines of 65 cycles.
const NTSC_LINES: u64 = 520;

/// How many cycles a bad line steals at least; it is up to 3 more, by what the processor does as it begins.
const STOLEN: u64 = 40;

/// More bad lines than come in any one wait.
const MOST: u32 = 100;

/// The cycles of a computer.
#[derive(Drop)]
pub struct Cycles {
    computer: Computer,
    /// How many have passed since it was switched on.
    pub passed: u64,
    bad_line: u64,
    lines: u64,
    seed: u32,
}

impl Cycles {
    /// As the computer is switched on: the phase of its bad lines, and all that comes by chance, by a seed.
    pub fn new(computer: Computer, seed: u32) -> Cycles {
        let mut cycles = Cycles {
            computer,
            passed: 0,
            bad_line: u64::MAX,
            lines: 0,
            seed: seed.wrapping_mul(2_654_435_761),
        };
        match computer {
            Computer::Pal => cycles.shows(PAL_LINES),
            Computer::Ntsc => cycles.shows(NTSC_LINES),
            Computer::DarkPal | Computer::DarkNtsc | Computer::Vic => {}
        }
        cycles
    }

    /// The screen is shown, with so many cycles from one bad line to the next.
    fn shows(&mut self, lines: u64) {
        self.lines = lines;
        self.bad_line = self.chance().wrapping_mul(2);
    }

    /// A number below 256, by chance.
    pub fn chance(&mut self) -> u64 {
        self.seed = self
            .seed
            .wrapping_mul(1_664_525)
            .wrapping_add(1_013_904_223);
        (self.seed / 0x0100_0000) as u64
    }

    /// Cycles pass, and those that a bad line steals among them.
    pub fn pass(&mut self, cycles: u64) {
        self.passed = self.passed.wrapping_add(cycles);
        for _ in 0..MOST {
            if self.passed < self.bad_line {
                return;
            }
            let stolen = STOLEN.wrapping_add(self.chance() % 4);
            self.passed = self.passed.wrapping_add(stolen);
            self.bad_line = self.bad_line.wrapping_add(self.lines);
        }
    }

    /// The moment that it is, in microseconds, rounded.
    pub fn moment(&self) -> u64 {
        let scaled = self.passed.wrapping_mul(1_000_000);
        match self.computer {
            Computer::Pal | Computer::DarkPal => scaled.wrapping_add(PAL / 2) / PAL,
            Computer::Ntsc | Computer::DarkNtsc => scaled.wrapping_add(NTSC / 2) / NTSC,
            Computer::Vic => scaled.wrapping_add(VIC / 2) / VIC,
        }
    }
}
