// The calls by t and r, with no record: each opens a record, r = 0 meaning r = t, and is the coder's call
// with it. They answer 0 or a place, and a refusal as its negated number, since C takes one number and no
// `Result`. What each answers and writes is defined in crate z2z4_theory, specs/Calls.antt; that it is the
// coder's call is a theorem there. Crate z2z4_c hands them to C under the same names.
#![tactic(auto)]

ghost use Rattle.std.specs.Prelude.{◌≡◌, ◌≢◌, ◌<◌, ◌^◌, MatchResult};
ghost use Rattle.z2z4_theory.specs.Calls.{signed, opened_for_c, encode_answer_for_c, encode_output_for_c, correct_answer_for_c, correct_output_for_c, combine_answer_for_c, combine_output_for_c, third_answer_for_c};

// The codeword of a message, at the front of `out`. Answers 0, or −1, −2, −3 or −4.
pub fn z2z4_encode(t: u32, r: u32, message: &[u8], out: &mut [u8]) -> i32
    ensures answer { result ≡ encode_answer_for_c t r message.now out.old }
    ensures bytes { out.new ≡ encode_output_for_c t r message.now out.old }
{
    match opened(t, r) {
        Ok(record) => answer(coder::encode(record, message, out).refusal, 0),
        Err(refused) => refused,
    }
}

// The codeword that differs from a word in at most one place, at the front of `out`. Answers that
// place, 0 for none, or −1, −2, −3 or −4.
pub fn z2z4_correct(t: u32, r: u32, word: &[u8], out: &mut [u8]) -> i32
    ensures answer { result ≡ correct_answer_for_c t r word.now out.old }
    ensures bytes { out.new ≡ correct_output_for_c t r word.now out.old }
{
    match opened(t, r) {
        Ok(record) => {
            let c = coder::correct(record, word, out);
            answer(c.refusal, c.place)
        }
        Err(refused) => refused,
    }
}

// Two words combined by the group law, at the front of `out`. Answers 0, or −1, −2, −3 or −4.
pub fn z2z4_combine(t: u32, r: u32, first: &[u8], second: &[u8], out: &mut [u8]) -> i32
    ensures answer { result ≡ combine_answer_for_c t r first.now second.now out.old }
    ensures bytes { out.new ≡ combine_output_for_c t r first.now second.now out.old }
{
    match opened(t, r) {
        Ok(record) => answer(coder::combine(record, first, second, out).refusal, 0),
        Err(refused) => refused,
    }
}

// The place that makes a codeword of weight 3 with the places i and j. Answers it, or −1, −5 or −6.
pub fn z2z4_third_place(t: u32, r: u32, i: u32, j: u32) -> i32
    ensures { result ≡ third_answer_for_c t r i j }
{
    match opened(t, r) {
        Ok(record) => {
            let p = coder::third_place(record, i, j);
            answer(p.refusal, p.place)
        }
        Err(refused) => refused,
    }
}

// The record of a call, or the refusal as C gets it. 0 is turned into r = t before opening, which has
// another default.
fn opened(t: u32, r: u32) -> Result<coder::Record, i32>
    ensures { MatchResult result (λ code. opened_for_c t r ≡ record { refusal = 0; «record» = code })
        (λ x. ((opened_for_c t r).refusal ≢ 0) × (x ≡ signed (opened_for_c t r).refusal 0)) }
{
    let used = parameters::or_hamming(t, r);
    let o = coder::open(t, used, 0);
    let refusal = o.refusal;
    if refusal == 0 {
        Ok(o.record)
    } else {
        Err(answer(refusal, 0))
    }
}

// A refusal negated, or where there is none the place.
fn answer(refusal: u32, place: u32) -> i32
    requires refusal_bound { refusal < 2 ^ 31 }
    requires place_bound { refusal ≡ 0 → place < 2 ^ 31 }
    ensures { result ≡ signed refusal place }
{
    if refusal == 0 {
        place as i32
    } else {
        -(refusal as i32)
    }
}
