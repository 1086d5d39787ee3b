ghost use Rattle.std.specs.Prelude.{◌≡◌, ◌<◌, ◌≤◌, [], ◌∷◌, ◌++◌, length, is_ok, IsErr, IfSome, OnOk, OnErr};
ghost use Rattle.syntax.specs.Signals.{signal_of, is_new, declaration};
ghost use Rattle.syntax.specs.Named.{names_of, NameAt};

use fixed_vec::FixedVec;

/// Why a name is not declared.
#[derive(Clone, Copy, Debug, PartialEq, Eq)]
pub enum NameRefusal {
    /// It is declared already.
    Declared,
    /// It has over 16 bytes.
    Long,
    /// It would be the 33rd.
    Full,
}

/// The names of signals, each of at most 16 bytes; the first is that of bit 0.
#[derive(Clone, Copy)]
pub struct Names {
    names: FixedVec<FixedVec<u8, 16>, 32>,
}

impl Names {
    /// No names.
    pub fn new() -> Names
        ensures { names_of result ≡ [] }
    {
        let names = FixedVec::new(FixedVec::new(0));
        Names { names }
    }

    /// How many names there are.
    pub fn len(&self) -> usize
        ensures { result ≡ length (names_of self.now) }
    {
        self.names.len()
    }

    /// The name of a signal.
    pub fn get(&self, signal: usize) -> Option<&[u8]>
        ensures { NameAt (names_of self.now) signal result }
    {
        self.names
            .as_slice()
            .get(signal)
            .map(|name| name.as_slice())
    }

    /// The signal of a name.
    pub fn find(&self, word: &[u8]) -> Option<u8>
        ensures value { result ≡ signal_of (names_of self.now) word.now }
        ensures bound { IfSome result (λ i. i < 32) }
    {
        let names = self.names.as_slice();
        names
            .iter()
            .position(|name| name.as_slice() == word)
            .map(|i| i as u8)
    }

    /// Declares a name, or says why not, with nothing changed.
    pub fn declare(&mut self, word: &[u8]) -> Result<(), NameRefusal>
        ensures value { result ≡ declaration (names_of self.old) word.now }
        ensures taken { length word.now ≤ 16 → is_ok result ≡ is_new (names_of self.old) word.now }
        ensures long { 16 < length word.now → IsErr result }
        ensures ok { OnOk result (names_of self.new ≡ names_of self.old ++ (word.now ∷ [])) }
        ensures err { OnErr result (self.new ≡ self.old) }
    {
        if self.find(word).is_some() {
            return Err(NameRefusal::Declared);
        }
        let mut name = FixedVec::new(0);
        name.extend(word).map_err(|_| NameRefusal::Long)?;
        self.names.push(name).map_err(|_| NameRefusal::Full)
    }
}
