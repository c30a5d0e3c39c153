// What words ask.

use rtio_core::Config;
use run_schedule::Schedule;
use sat_rounds::LinkWord;

/// How a session runs.
#[derive(Debug, Drop)]
pub struct Options {
    /// The settings of the core, of which one can be made.
    pub config: Config,
    /// The units of the session, 1 to 1,000,000.
    pub budget: u32,
    /// In which order processor and core take their steps.
    pub schedule: Schedule,
}

/// What the words of `artiq_sim` ask.
#[derive(Debug, Drop)]
pub enum Asked {
    /// `sim`: a kernel text is run and reported, and under `dma` the recordings that are kept.
    Sim { options: Options, dma: bool },
    /// `sim --gen`: the generated kernel of this number, below 2^63, is run and summed up.
    Generated { number: u64, options: Options },
    /// `check`: a kernel text is checked and printed.
    Check,
    /// `compile`: a kernel text is compiled.
    Compile,
    /// `exec`: an image is run and reported, and under `dma` the recordings that are kept.
    Exec { options: Options, dma: bool },
    /// `gen`: the text of the generated kernel of this number, below 2^63.
    Gen { number: u64 },
    /// `dump`: a kernel text is run, and what its core did is written as bytes.
    Dump { options: Options },
    /// `vcd`: such bytes are written as a waveform text.
    Vcd,
    /// `slack`: a kernel text is checked for outputs that may come too late, at this cost of a request (mu) and for lanes that
    /// take so many events at least.
    Slack { cost: u64, depth: u32 },
    /// `sat`: a kernel text is run, and the events that its core put out are sent over a link, in rounds of the word's
    /// letters.
    Sat { options: Options, word: LinkWord },
}
