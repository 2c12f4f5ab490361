#![tactic(auto)]

// The five fields of the state word, and the word itself.
ghost use Rattle.std.specs.Prelude.{◌≡◌, ◌-◌, min};
ghost use Rattle.state_word.specs.State.{of_word, word_of, cut, good_word, with_vl, with_mvl, state_in_shape};

// C's layout is for the benchmark alone, as that of `Machine`, of which it is a part.
#[repr(C)]
#[derive(Clone, Copy)]
pub struct State {
    pub mvl: u32,
    pub vl: u32,
    pub cfg: u32,
    pub source: u32,
    pub destination: u32,
}

impl From<u32> for State {
    ghost from_gives = { λ word state. state ≡ of_word word };

    #[tactic(auto, unfolding(crate::specs::State::of_word))]
    fn from(word: u32) -> State {
        State {
            mvl: word % 64 + 1,
            vl: word / 64 % 64 + 1,
            cfg: word / 16777216 % 32,
            source: word / 4096 % 64,
            destination: word / 262144 % 64,
        }
    }
}

impl From<State> for u32 {
    ghost from_gives = { λ state word. word ≡ word_of state };

    #[tactic(auto, unfolding(crate::specs::State::word_of))]
    fn from(state: State) -> u32 {
        state.mvl.saturating_sub(1) % 64
            + state.vl.saturating_sub(1) % 64 * 64
            + state.source % 64 * 4096
            + state.destination % 64 * 262144
            + state.cfg % 32 * 16777216
    }
}

impl State {
    // VL no more than MVL.
    pub fn cut(mut self) -> State
        ensures { result ≡ cut self }
    {
        self.vl = self.vl.min(self.mvl);
        self
    }

    pub fn with_vl(mut self, n: u64) -> State
        ensures { result ≡ with_vl self n }
    {
        self.vl = n.min(u64::from(self.mvl)) as u32;
        self.source = 0;
        self.destination = 0;
        self
    }

    pub fn with_mvl(mut self, n: u32) -> State
        ensures { result ≡ with_mvl self n }
    {
        self.vl = self.vl.min(n);
        self.mvl = n;
        self.source = 0;
        self.destination = 0;
        self
    }

    #[tactic(auto, unfolding(crate::specs::State::state_in_shape))]
    pub fn in_shape(self) -> bool
        ensures { result ≡ state_in_shape self }
    {
        (1 <= self.mvl)
            & (self.mvl <= 64)
            & (1 <= self.vl)
            & (self.vl <= self.mvl)
            & (self.cfg <= 31)
            & (self.source < self.vl)
            & (self.destination < self.vl)
    }
}

// Whether a state word can be set.
#[tactic(auto, unfolding(crate::specs::State::good_word))]
pub fn good_word(word: u32) -> bool
    ensures { result ≡ good_word word }
{
    let state = State::from(word).cut();
    (word / 536870912 % 8 == 0) & (state.source < state.vl) & (state.destination < state.vl)
}
