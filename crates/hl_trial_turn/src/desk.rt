// A desk that lends one page at a time. It relies on the page that is out coming back as it left.
ghost use Rattle.std.specs.Prelude.{◌≡◌};

use crate::slip::Slip;
use hl_turn::Object;
use std::alloc::Global;

/// A page that is lent, by its number.
#[derive(Clone, Copy, PartialEq, Eq, Debug)]
pub struct Page {
    pub number: u64,
    pub text: u64,
}

/// The text that a seat wants on its page.
#[derive(Clone, Copy, PartialEq, Eq, Debug)]
pub struct Wish {
    pub seat: u32,
    pub text: u64,
}

/// What the desk is asked.
#[derive(Drop)]
pub enum Ask {
    Lend(Wish),
    Back(Page),
}

/// What the desk answers.
#[derive(Drop)]
pub enum Said {
    Lent(Page),
    Taken,
    /// A page is out.
    Out,
    /// Want of memory.
    Memory,
}

/// Lends pages, and lists them.
#[derive(Drop)]
pub struct Desk {
    pub loans: Vec<Slip>,
    pub out: Option<Page>,
}

impl Object for Desk {
    ghost use Rattle.hl_trial_turn.specs.Slips.{CountsUp, CountsUp-none};
    ghost use Rattle.hl_trial_turn.specs.Pages.{pages_out, names, brought, comes_back, taken, Lends};

    type Event = Ask;

    type Answer = Said;

    type Entry = Slip;

    type Item = u64;

    type Claim = u64;

    ghost entries = { λ d. d.loans.items };

    ghost seat_of = { λ e. e.seat };

    ghost legal_over = { λ o d. CountsUp d.loans.items };

    ghost jobs_out = { λ o d. pages_out d.out };

    ghost meets = { λ x c. x ≡ c };

    ghost asks = { names };

    ghost brings = { brought };

    ghost returns = { comes_back };

    ghost takes = { λ event answer. taken answer };

    ghost does = { λ d event answer e. Lends d.loans.items d.out event answer e.loans.items e.out };

    ghost empty_is_legal = { λ o none out. CountsUp-none o.loans.items none };

    fn step(&mut self, alloc: Global, event: Ask) -> Said {
        let _ = alloc;
        match event {
            Ask::Lend(wish) => {
                if self.out.is_some() {
                    return Said::Out;
                }
                let number = self.loans.len() as u64;
                let page = Page {
                    number,
                    text: wish.text,
                };
                match self.loans.push(Slip {
                    seat: wish.seat,
                    number,
                }) {
                    Ok(()) => {
                        self.out = Some(page);
                        Said::Lent(page)
                    }
                    Err(_) => Said::Memory,
                }
            }
            Ask::Back(_page) => {
                self.out = None;
                Said::Taken
            }
        }
    }
}
