//! The functions f1 to f5* (TS 35.206 §4.1).

ghost use Rattle.std.specs.Prelude.{◌≡◌, take, drop};
ghost use Rattle.auc_milenage.specs.Milenage.{f1 as f1_by, f1_star as f1_star_by, f2, f3, f4, f5, f5_star as f5_star_by, temp_of, out1, out, r2, r3, r4, r5, c2, c3, c4, c5};

use crate::milenage::{Milenage, first_half, first_six, second_half};
use crate::secret::{Four, Outs, Secret};

/// f1: MAC-A over RAND, SQN and AMF.
#[tactic(auto, unfolding(crate::specs::Milenage::f1))]
pub fn f1(s: &Secret, rand: [u8; 16], sqn: [u8; 6], amf: [u8; 2]) -> [u8; 8]
    ensures { result ≡ f1_by s.now.k s.now.opc rand sqn amf }
{
    let m = Milenage::new(s);
    first_half(m.out1(m.temp(rand), sqn, amf))
}

/// f1*: MAC-S, the authentication code of a resynchronisation.
#[tactic(auto, unfolding(crate::specs::Milenage::f1_star))]
pub fn f1_star(s: &Secret, rand: [u8; 16], sqn: [u8; 6], amf: [u8; 2]) -> [u8; 8]
    ensures { result ≡ f1_star_by s.now.k s.now.opc rand sqn amf }
{
    let m = Milenage::new(s);
    second_half(m.out1(m.temp(rand), sqn, amf))
}

/// f2, f3, f4 and f5: RES, CK, IK and AK of a RAND.
#[tactic(auto, unfolding(crate::specs::Milenage::f2, crate::specs::Milenage::f3, crate::specs::Milenage::f4, crate::specs::Milenage::f5))]
pub fn f2345(s: &Secret, rand: [u8; 16]) -> Four
    ensures res { result.res ≡ f2 s.now.k s.now.opc rand }
    ensures ck { result.ck ≡ f3 s.now.k s.now.opc rand }
    ensures ik { result.ik ≡ f4 s.now.k s.now.opc rand }
    ensures ak { result.ak ≡ f5 s.now.k s.now.opc rand }
{
    let m = Milenage::new(s);
    four(&m, m.temp(rand))
}

impl Milenage {
    /// f1 to f5 at once, with five AES blocks: MAC-A, and RES, CK, IK and AK.
    #[tactic(auto, unfolding(crate::specs::Milenage::f1, crate::specs::Milenage::f2, crate::specs::Milenage::f3, crate::specs::Milenage::f4, crate::specs::Milenage::f5))]
    pub fn f12345(&self, rand: [u8; 16], sqn: [u8; 6], amf: [u8; 2]) -> ([u8; 8], Four)
        ensures mac { result.0 ≡ f1_by self.now.k self.now.opc rand sqn amf }
        ensures res { result.1.res ≡ f2 self.now.k self.now.opc rand }
        ensures ck { result.1.ck ≡ f3 self.now.k self.now.opc rand }
        ensures ik { result.1.ik ≡ f4 self.now.k self.now.opc rand }
        ensures ak { result.1.ak ≡ f5 self.now.k self.now.opc rand }
    {
        let temp = self.temp(rand);
        (first_half(self.out1(temp, sqn, amf)), four(self, temp))
    }
}

/// f5*: the AK of a resynchronisation.
#[tactic(auto, unfolding(crate::specs::Milenage::f5_star))]
pub fn f5_star(s: &Secret, rand: [u8; 16]) -> [u8; 6]
    ensures { result ≡ f5_star_by s.now.k s.now.opc rand }
{
    let m = Milenage::new(s);
    first_six(m.out5(m.temp(rand)))
}

/// OUT1 to OUT5 of a RAND, an SQN and an AMF, with six AES blocks.
pub fn outs(s: &Secret, rand: [u8; 16], sqn: [u8; 6], amf: [u8; 2]) -> Outs
    ensures out1 { result.out1 ≡ out1 s.now.k s.now.opc (temp_of s.now.k s.now.opc rand) sqn amf }
    ensures out2 { result.out2 ≡ out r2 c2 s.now.k s.now.opc (temp_of s.now.k s.now.opc rand) }
    ensures out3 { result.out3 ≡ out r3 c3 s.now.k s.now.opc (temp_of s.now.k s.now.opc rand) }
    ensures out4 { result.out4 ≡ out r4 c4 s.now.k s.now.opc (temp_of s.now.k s.now.opc rand) }
    ensures out5 { result.out5 ≡ out r5 c5 s.now.k s.now.opc (temp_of s.now.k s.now.opc rand) }
{
    let m = Milenage::new(s);
    let temp = m.temp(rand);
    Outs {
        out1: m.out1(temp, sqn, amf),
        out2: m.out2(temp),
        out3: m.out3(temp),
        out4: m.out4(temp),
        out5: m.out5(temp),
    }
}

/// RES, CK, IK and AK from OUT2, OUT3 and OUT4.
fn four(m: &Milenage, temp: [u8; 16]) -> Four
    ensures res { result.res ≡ drop 8 (out r2 c2 m.now.k m.now.opc temp) }
    ensures ck { result.ck ≡ out r3 c3 m.now.k m.now.opc temp }
    ensures ik { result.ik ≡ out r4 c4 m.now.k m.now.opc temp }
    ensures ak { result.ak ≡ take 6 (out r2 c2 m.now.k m.now.opc temp) }
{
    let out2 = m.out2(temp);
    Four {
        res: second_half(out2),
        ck: m.out3(temp),
        ik: m.out4(temp),
        ak: first_six(out2),
    }
}
