// Triple DES with two keys, on bytes.
ghost use Rattle.std.specs.Prelude.{◌≡◌};
ghost use Rattle.des.specs.TripleDes.{triple_des_word, triple_des};
ghost use Rattle.des.specs.PermutationLaws.{PermutationLaws};
ghost use Rattle.des.specs.BoxLaws.{BoxLaws};
ghost use Rattle.des.specs.KeyLaws.{KeyLaws};
ghost use Rattle.des.specs.DesLaws.{DecipheringUndoes, Complementation, TripleDesUndone, EqualHalvesAreDes, ParityIgnored};
ghost use Rattle.des.specs.KnownAnswers.{KnownAnswersHold};
ghost use Rattle.std.proofs.Common.{rules};

use crate::des::{des_decipher, des_encipher};
use cipher::{Cipher, block_of, words_of};

// Encipher with the first key, decipher with the second, encipher with the first.
fn triple_des(k1: u64, k2: u64, x: u64) -> u64
    ensures { result ≡ triple_des_word k1 k2 x }
{
    des_encipher(k1, des_decipher(k2, des_encipher(k1, x)))
}

// The cipher Triple DES.
#[derive(Clone, Copy, Drop)]
pub struct TripleDes;

impl Cipher for TripleDes {
    const BLOCK: usize = 8;

    ghost BLOCK = { 8 };

    ghost enciphered = { triple_des };

    ghost sized = { Prim.search rules };

    // Triple DES on the first eight bytes of a block; the others come out as 00. The clauses after the first are laws of the definition.
    #[tactic(auto, unfolding(crate::specs::TripleDes::triple_des, cipher::specs::Words::bytes_of))]
    fn encipher(key: [u8; 16], block: [u8; 16]) -> [u8; 16]
        ensures value { result ≡ triple_des key block }
        ensures permutations { PermutationLaws }
        ensures boxes { BoxLaws }
        ensures keys { KeyLaws }
        ensures deciphering { DecipheringUndoes }
        ensures complementation { Complementation }
        ensures triple_deciphering { TripleDesUndone }
        ensures equal_halves { EqualHalvesAreDes }
        ensures parity { ParityIgnored }
        ensures known_answers { KnownAnswersHold }
    {
        let (k1, k2) = words_of(key);
        let (x, _) = words_of(block);
        block_of(triple_des(k1, k2, x), 0)
    }
}
