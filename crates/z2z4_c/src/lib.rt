// The library for C, declared in include/z2z4.h: the four calls of crate z2z4, each with that call's clauses
// word for word. In C a slice is a pointer and a length. The caller keeps an output apart from what is read.
#![tactic(auto)]

ghost use Rattle.std.specs.Prelude.{◌≡◌};
ghost use Rattle.z2z4_theory.specs.Calls.{encode_answer_for_c, encode_output_for_c, correct_answer_for_c, correct_output_for_c, combine_answer_for_c, combine_output_for_c, third_answer_for_c};

// The codeword of a message, at the front of `out`. Answers 0, or −1, −2, −3 or −4.
#[unsafe(no_mangle)]
pub extern "C" fn z2z4_encode(t: u32, r: u32, message: &[u8], out: &mut [u8]) -> i32
    ensures answer { result ≡ encode_answer_for_c t r message.now out.old }
    ensures bytes { out.new ≡ encode_output_for_c t r message.now out.old }
{
    z2z4::z2z4_encode(t, r, message, out)
}

// The codeword that differs from a word in at most one place, at the front of `out`. Answers that
// place, 0 for none, or −1, −2, −3 or −4.
#[unsafe(no_mangle)]
pub extern "C" fn z2z4_correct(t: u32, r: u32, word: &[u8], out: &mut [u8]) -> i32
    ensures answer { result ≡ correct_answer_for_c t r word.now out.old }
    ensures bytes { out.new ≡ correct_output_for_c t r word.now out.old }
{
    z2z4::z2z4_correct(t, r, word, out)
}

// Two words combined by the group law, at the front of `out`. Answers 0, or −1, −2, −3 or −4.
#[unsafe(no_mangle)]
pub extern "C" fn z2z4_combine(t: u32, r: u32, first: &[u8], second: &[u8], out: &mut [u8]) -> i32
    ensures answer { result ≡ combine_answer_for_c t r first.now second.now out.old }
    ensures bytes { out.new ≡ combine_output_for_c t r first.now second.now out.old }
{
    z2z4::z2z4_combine(t, r, first, second, out)
}

// The place that makes a codeword of weight 3 with the places i and j. Answers it, or −1, −5 or −6.
#[unsafe(no_mangle)]
pub extern "C" fn z2z4_third_place(t: u32, r: u32, i: u32, j: u32) -> i32
    ensures { result ≡ third_answer_for_c t r i j }
{
    z2z4::z2z4_third_place(t, r, i, j)
}
