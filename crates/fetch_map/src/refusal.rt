// Why a call on the map is refused.
#[derive(Clone, Copy)]
pub enum Refusal {
    // The map does not have 1,024 words.
    WrongWords,
}
