// The exported functions called, each with an array that is marked before.
use rodcrank::{
    rodcrank_decremental, rodcrank_dynamic, rodcrank_one_shot, rodcrank_plan, rodcrank_static,
};
use second::Question;
use second_replies::REPLY;

// What stands in the array before a call.
const MARK: u64 = 1099511627775;

// What a call leaves in the array.
pub fn left_by<F: FnOnce(&mut [u64; REPLY])>(call: F) -> [u64; REPLY]
    requires { F.IsAlwaysCallable call }
{
    let mut out = [MARK; REPLY];
    call(&mut out);
    out
}

pub fn call_question(question: Question, file: &[u8], t: u32, limit: u32) -> [u64; REPLY] {
    left_by(|out| match question {
        Question::Plan => rodcrank_plan(file, limit, out),
        Question::Static => rodcrank_static(file, t, limit, out),
        Question::Decremental => rodcrank_decremental(file, t, limit, out),
        Question::OneShot => rodcrank_one_shot(file, t, limit, out),
        Question::Dynamic => rodcrank_dynamic(file, t, limit, out),
    })
}
