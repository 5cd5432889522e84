ghost use Rattle.std.specs.Prelude.{◌≡◌};
ghost use Rattle.comments.specs.Notes.{has};

// Whether the needle stands in the text as consecutive bytes. An empty needle stands in every text.
pub(crate) fn contains(text: &[u8], needle: &[u8]) -> bool
    ensures { result ≡ has text.now needle.now }
{
    // Searches are loops with labels, left from inside at a match; places are counted, since `windows` would make the empty needle a case apart.
    let mut found = false;
    'places: for at in 0..(text.len() + 1).saturating_sub(needle.len()) {
        'bytes: for (k, b) in needle.iter().enumerate() {
            if text[at + k] != *b {
                continue 'places;
            }
        }
        found = true;
        break 'places;
    }
    found
}
