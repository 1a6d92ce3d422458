// What a line of `data/` says, but for those that begin a case: `main.rt` tells it. What a key and a field are is told in
// the crate `lines`.
use super::answers::Answer;
use lines::Fields;

// What is changed in a case.
#[derive(Drop)]
pub enum Change<'a> {
    // `at P W ..`: the numbers from place P on are the words W. They may go on past the last number.
    Numbers { at: usize, words: &'a [u32] },
    // `cut N`: there are N numbers.
    Length(usize),
    // `scratch N W`: scratch has N numbers, and the one at i is the word W + i.
    Scratch { length: usize, fill: u32 },
    // `plane K W W W W W W`: the plane of neighbour K, point and normal.
    Plane { index: usize, words: &'a [u32] },
    // `unseen K`: the first neighbour that is unseen is K.
    Unseen(usize),
}

#[derive(Drop)]
pub enum Said<'a> {
    Change(Change<'a>),
    // `free W W W`, `relaxed K W W W` or `refused N P`: the answer that is wanted.
    Wanted(Answer),
}

// What a key says with the fields that it asks for; nothing with others.
pub(crate) fn read<'a>(key: &[u8], fields: &'a Fields) -> Option<Said<'a>> {
    match (key, fields.counts(), fields.words()) {
        (b"at", &[at], words @ [_, ..]) => Some(Said::Change(Change::Numbers { at, words })),
        (b"cut", &[length], []) => Some(Said::Change(Change::Length(length))),
        (b"scratch", &[length], &[fill]) => Some(Said::Change(Change::Scratch { length, fill })),
        (b"plane", &[index], words @ [_, _, _, _, _, _]) => {
            Some(Said::Change(Change::Plane { index, words }))
        }
        (b"unseen", &[neighbour], []) => Some(Said::Change(Change::Unseen(neighbour))),
        (b"free", [], &[x, y, z]) => Some(Said::Wanted(Answer::velocity(None, [x, y, z]))),
        (b"relaxed", &[plane], &[x, y, z]) => {
            Some(Said::Wanted(Answer::velocity(Some(plane), [x, y, z])))
        }
        (b"refused", &[number @ (1..=7 | 17..=18), place], []) => {
            Some(Said::Wanted(Answer::refused(number, place)))
        }
        _ => None,
    }
}
