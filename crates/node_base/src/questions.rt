//! The numbers of questions.
ghost use Rattle.std.specs.Prelude.{◌≡◌};
ghost use Rattle.node_base.specs.Asking.{next_ask, draw, number_for, asked_as, drawn_for, own_of};

/// The number of the last question of a node. It is kept over crashes, so that no number is drawn twice.
#[derive(Clone, Copy, PartialEq, Eq)]
pub struct Questions {
    /// The number; 0 where nothing was asked.
    pub last: u32,
}

impl Questions {
    /// Nothing was asked.
    pub fn new() -> Questions
        ensures { result ≡ record { last = 0 } }
    {
        Questions { last: 0 }
    }

    /// The number of a new question.
    pub fn draw(&mut self) -> u32
        ensures number { result ≡ next_ask self.old }
        ensures questions { self.new ≡ draw self.old }
    {
        if self.last < u32::MAX {
            self.last += 1;
        }
        self.last
    }
}

/// Under which question of the node the newest question of one of its machines is out. A machine numbers
/// its own questions from 1, and awaits answers to its newest one alone.
#[derive(Clone, Copy, PartialEq, Eq)]
pub struct Asked {
    /// The machine's number; 0 where it asked nothing.
    pub own: u32,
    /// The node's number.
    pub ask: u32,
}

impl Asked {
    /// The machine asked nothing.
    pub fn new() -> Asked
        ensures { result ≡ record { own = 0; ask = 0 } }
    {
        Asked { own: 0, ask: 0 }
    }

    /// Under which number the machine's question goes out: a new one, unless the question is out already.
    pub fn number(&mut self, questions: &mut Questions, own: u32) -> u32
        ensures number { result ≡ number_for self.old questions.old own }
        ensures asked { self.new ≡ asked_as self.old questions.old own }
        ensures questions { questions.new ≡ drawn_for self.old questions.old own }
    {
        if own != self.own {
            self.own = own;
            self.ask = questions.draw();
        }
        self.ask
    }

    /// The machine's number of the question that is answered; none where another one is awaited.
    pub fn own(self, ask: u32) -> Option<u32>
        ensures { result ≡ own_of self ask }
    {
        if self.own != 0 && ask == self.ask {
            Some(self.own)
        } else {
            None
        }
    }
}
