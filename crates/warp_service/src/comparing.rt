//! Comparing logs by their digests: what a peer tells of its own, and whether that is another one than that of the own log.
ghost use Rattle.std.specs.Prelude.{◌≡◌, ◌≤◌, ◌∷◌, [], IfSome, map, None, false};
ghost use Rattle.warp_tag.specs.Limits.{last_number};
ghost use Rattle.warp_service.specs.Comparing.{compared, digest_words, is_other, parted, told_line};

use warp_record::{is_keyword, read_u32, split_words};

/// How many digits a digest has.
const DIGITS: usize = 32;

/// A digest that was told: of so many records, these digits.
#[derive(Clone, Copy, Debug)]
pub struct ToldDigest {
    /// How many records of the log are counted.
    pub len: u32,
    /// The digits.
    pub digits: [u8; DIGITS],
}

impl ToldDigest {
    /// Whether this is another digest of as many records. Of logs of other lengths nothing is known.
    fn is_other(&self, own: &ToldDigest) -> bool
        ensures { result ≡ is_other self.now own.now }
    {
        self.len == own.len && self.digits != own.digits
    }
}

/// How the log of a peer compares with the own one.
#[derive(Clone, Copy, Debug)]
pub struct Compared {
    /// What it was asked last was its digest.
    pub asks: bool,
    /// It does not know that word.
    pub is_unknown: bool,
    /// What it told of its digest, and was not compared.
    pub told: Option<ToldDigest>,
    /// Where both logs were as long when they were compared last, their digests were not the same.
    pub differs: bool,
}

impl Compared {
    /// Nothing was compared.
    pub fn new() -> Compared
        ensures { result ≡ record { asks = false; is_unknown = false; told = None; differs = false } }
    {
        Compared {
            asks: false,
            is_unknown: false,
            told: None,
            differs: false,
        }
    }

    /// The connection is lost: nothing that it was asked is answered.
    pub fn part(&mut self)
        ensures { self.new ≡ parted self.old }
    {
        self.asks = false;
        self.is_unknown = false;
        self.told = None;
    }

    /// It is asked a question, for its digest or not.
    pub fn ask(&mut self, asks: bool)
        ensures { self.new ≡ record self.old { asks = asks } }
    {
        self.asks = asks;
    }

    /// It answered the question by this line. What is no digest says, where it was asked for one, that it does not know the word.
    pub fn hear(&mut self, line: &[u8]) {
        if !self.asks {
            return;
        }
        self.asks = false;
        self.told = read_digest(line);
        self.is_unknown = self.told.is_none();
    }

    /// What it told of its digest is compared with the own one. Where the logs are not as long, what was known stays.
    pub fn compare(&mut self, own: &ToldDigest)
        ensures { self.new ≡ compared own.now self.old }
    {
        let Some(told) = self.told else {
            return;
        };
        self.told = None;
        if told.len == own.len {
            self.differs = told.is_other(own);
        }
    }

    /// What it told is compared no more.
    pub fn forget(&mut self)
        ensures { self.new ≡ record self.old { told = None } }
    {
        self.told = None;
    }
}

/// The digest that this line tells: `digest N D`; `None` where it tells none.
pub fn read_digest(line: &[u8]) -> Option<ToldDigest>
    ensures { IfSome result (λ told. (told.len ≤ last_number) × (line.now ≡ told_line told)) }
{
    let words = split_words(line)?;
    digest_in(&words)
}

/// The digest that these words tell.
fn digest_in(words: &[&[u8]]) -> Option<ToldDigest>
    ensures { IfSome result (λ told. (told.len ≤ last_number) × (map (λ text. text.now) words.now ≡ digest_words told)) }
{
    match words {
        [word, len, digits] => digest_of(word, len, digits),
        _ => None,
    }
}

/// The digest that these three words tell.
fn digest_of(word: &[u8], len: &[u8], text: &[u8]) -> Option<ToldDigest>
    ensures { IfSome result (λ told. (told.len ≤ last_number)
        × (word.now ∷ len.now ∷ text.now ∷ [] ≡ digest_words told)) }
{
    if !is_keyword(word, b"digest") {
        return None;
    }
    let len = read_u32(len, u32::MAX)?;
    let digits = digits_of(text)?;
    Some(ToldDigest { len, digits })
}

/// These bytes, where they are as many as a digest has digits.
fn digits_of(text: &[u8]) -> Option<[u8; DIGITS]>
    ensures { IfSome result (λ digits. digits ≡ text.now) }
{
    if text.len() != DIGITS {
        return None;
    }
    let mut digits = [0u8; DIGITS];
    digits.copy_from_slice(text);
    Some(digits)
}
