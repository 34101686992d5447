//! The draws of the caches' thread.

ghost use Rattle.std.specs.Prelude.{◌≡◌, ◌<◌, if◌then◌else◌};
ghost use Rattle.nc_rules.specs.Schedule.{begun};
ghost use Rattle.nc_turns.specs.Draws.{copy_event, draw_from};
ghost use Rattle.nc_turns.specs.Threads.{is_cache_event};

use nc_num::{Block, HartNo};
use nc_scen::Event;
use nc_sched::STREAM;
use rand_core::utils::NextWord;
use rand_pcg::Lcg64Xsh32;

/// The two words that are drawn next, and the generator after them (PCG XSH RR 64/32 on stream 54; O'Neill,
/// pcg-random.org).
#[derive(Drop)]
pub struct Draws {
    /// The first word.
    pub first: u32,
    /// The second word.
    pub second: u32,
    /// The generator that draws the words after these.
    pub generator: Lcg64Xsh32,
}

/// Draws the next two words of a generator.
fn draw(generator: Lcg64Xsh32) -> Draws
    ensures { result ≡ draw_from generator }
{
    let mut generator = generator;
    let first = generator.next_word();
    let second = generator.next_word();
    Draws {
        first,
        second,
        generator,
    }
}

impl Draws {
    /// Draws the first two words of the generator with the seed `seed`.
    pub fn new(seed: u64) -> Draws
        ensures { result ≡ draw_from (begun seed) }
    {
        draw(Lcg64Xsh32::new(seed, STREAM))
    }

    /// Returns the event of the two words, in a machine of `harts` harts and `blocks` blocks: a fill where the first
    /// word is even, else an eviction. The first word's other bits give the hart, and the second word the block.
    pub fn event(&self, harts: u8, blocks: u32) -> Event
        requires some { 0 < harts }
        requires blocks { 0 < blocks }
        ensures { result ≡ copy_event (record { harts = harts; blocks = blocks }) self.now.first self.now.second }
    {
        let hart = HartNo((self.first / 2 % u32::from(harts)) as u8);
        let block = Block(self.second % blocks);
        if self.first % 2 == 0 {
            return Event::Fill(hart, block);
        }
        Event::Evict(hart, block)
    }

    /// Advances past event `e`: draws the next two words where it is a fill or an eviction.
    pub fn pass(&mut self, e: Event)
        ensures { self.new ≡ (if is_cache_event e then draw_from self.old.generator else self.old) }
    {
        match e {
            Event::Fill(_, _) | Event::Evict(_, _) => {
                self.first = self.generator.next_word();
                self.second = self.generator.next_word();
            }
            Event::Issue(_)
            | Event::Try(_)
            | Event::Told(_, _)
            | Event::Drain(_, _)
            | Event::ChanRead(_)
            | Event::ChanWrite(_) => {}
        }
    }
}
