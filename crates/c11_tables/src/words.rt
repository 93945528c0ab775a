use c11_events::Order;
use std::alloc::{AllocError, Global};

/// The order of a word.
pub fn order(word: &str) -> Option<Order> {
    match word {
        "relaxed" => Some(Order::Relaxed),
        "consume" => Some(Order::Consume),
        "acquire" => Some(Order::Acquire),
        "release" => Some(Order::Release),
        "acq_rel" => Some(Order::AcqRel),
        "seq_cst" => Some(Order::SeqCst),
        _ => None,
    }
}

/// The number of a word.
pub fn number(word: &str) -> Option<u32> {
    word.parse::<u32>().ok()
}

/// The numbers of a word, with a comma between each two; `-` has none.
pub fn numbers(alloc: Global, word: &str) -> Result<Option<Vec<u32>>, AllocError> {
    let mut all = Vec::new(alloc);
    if word == "-" {
        return Ok(Some(all));
    }
    for part in word.split(',') {
        let Some(one) = number(part) else {
            return Ok(None);
        };
        all.push(one)?;
    }
    Ok(Some(all))
}
