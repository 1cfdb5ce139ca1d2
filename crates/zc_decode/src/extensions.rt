// Which rows and halfwords a chip has.

ghost use Rattle.std.specs.Prelude.{◌≡◌};
ghost use Rattle.zc_decode.specs.Extensions.{has_half, has_row};

use crate::form::Form;
use crate::rows::form_at;
use zc_base::extensions::Extensions;

// Whether a chip with these extensions has a row; every chip has those of Zca.
fn has_row(extensions: Extensions, form: Form) -> bool
    ensures { result ≡ has_row extensions form }
{
    match form {
        Form::CLbu
        | Form::CLhu
        | Form::CLh
        | Form::CSb
        | Form::CSh
        | Form::CMul
        | Form::CZextB
        | Form::CNot => extensions.zcb,
        Form::CmPush
        | Form::CmPop
        | Form::CmPopretz
        | Form::CmPopret
        | Form::CmMvsa01
        | Form::CmMva01s => extensions.zcmp,
        Form::CmJt | Form::CmJalt => extensions.zcmt,
        Form::CAddi4spn
        | Form::CLw
        | Form::CSw
        | Form::CNop
        | Form::CAddi
        | Form::CJal
        | Form::CLi
        | Form::CAddi16sp
        | Form::CLui
        | Form::CSrli
        | Form::CSrai
        | Form::CAndi
        | Form::CSub
        | Form::CXor
        | Form::COr
        | Form::CAnd
        | Form::CJ
        | Form::CBeqz
        | Form::CBnez
        | Form::CSlli
        | Form::CLwsp
        | Form::CJr
        | Form::CMv
        | Form::CEbreak
        | Form::CJalr
        | Form::CAdd
        | Form::CSwsp => true,
    }
}

/// Whether a chip with these extensions has a halfword: it is of a row that the chip has.
#[tactic(auto, unfolding(crate::specs::Extensions::has_half))]
pub fn has_half(extensions: Extensions, half: u16) -> bool
    ensures { result ≡ has_half extensions half }
{
    match form_at(u32::from(half)) {
        None => false,
        Some(form) => has_row(extensions, form),
    }
}
