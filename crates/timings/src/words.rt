// Words as numbers.

/// The number that stands at a place among the words, from 0; None where there is none.
pub fn number_at(words: &[String], place: usize) -> Option<u32> {
    words.get(place)?.as_str().parse::<u32>().ok()
}
