use crate::{
    a_text_of_bytes_is_judged, reading_tells_the_verdict, tokens_are_one_text_or_have_one_fault,
};

#[test]
fn the_laws_do_nothing_when_they_run() {
    tokens_are_one_text_or_have_one_fault();
    a_text_of_bytes_is_judged();
    reading_tells_the_verdict();
}
