//! Cutting a text into its words: what stands between its spaces.
ghost use Rattle.std.specs.Prelude.{◌≡◌, ◌<◌, ◌↔◌, [], ◌∷◌, ◌++◌, IfSome, IfNone, OnSome, IsTrue, codes, length, map};
ghost use Rattle.std.specs.List.{slice_split};
ghost use Rattle.warp_record.specs.Number.{is_space};

use arrayvec::ArrayVec;

/// The most words of a text: those of the reply `log N event O T M I V`, and of the move `make R event O T M I V`.
pub const MOST_WORDS: usize = 8;

/// Adds the word behind the others; `None` where there is no place for it.
fn push_word<'a>(words: &mut ArrayVec<&'a [u8], MOST_WORDS>, word: &'a [u8]) -> Option<()>
    ensures added { OnSome result
        (map (λ word. word.now) words.new.items ≡ map (λ word. word.now) words.old.items ++ word.now ∷ []) }
    ensures full { IfNone result (length words.old.items ≡ MOST_WORDS) }
{
    words.try_push(word).ok()
}

/// The words of the text; `None` where there are more than `MOST_WORDS`. A space at an end, or one behind another,
/// has an empty word beside it.
pub fn split_words(bytes: &[u8]) -> Option<ArrayVec<&[u8], MOST_WORDS>>
    ensures found { IfSome result (λ words. map (λ word. word.now) words.items ≡ slice_split is_space bytes.now) }
    ensures none { IfNone result (MOST_WORDS < length (slice_split is_space bytes.now)) }
{
    let mut words = ArrayVec::new();
    let mut start = 0;
    for (place, byte) in bytes.iter().enumerate() {
        if *byte == b' ' {
            push_word(&mut words, &bytes[start..place])?;
            start = place + 1;
        }
    }
    push_word(&mut words, &bytes[start..])?;
    Some(words)
}

/// Whether the word stands for all origins together: `*`.
pub fn is_all(word: &[u8]) -> bool
    ensures { IsTrue result ↔ (word.now ≡ codes "*") }
{
    is_keyword(word, b"*")
}

/// Whether the word is this keyword.
pub fn is_keyword(word: &[u8], keyword: &[u8]) -> bool
    ensures { IsTrue result ↔ (word.now ≡ keyword.now) }
{
    word == keyword
}
