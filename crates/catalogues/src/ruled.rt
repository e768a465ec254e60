// The ruled set, which knows codes by their form.
ghost use Rattle.std.specs.Prelude.{◌≡◌};
ghost use Rattle.rules.specs.Catalogues.{ruled, by_form as by_form_of};
ghost use Rattle.theory.proofs.CatalogueLaws.{ruled_bounded};

use crate::sets::CatalogueSet;
use byte_classes::{Digit, all_of, is_code};
use rules::Catalogue;

const TYPES: [&[u8]; 5] = [b"I", b"E", b"T", b"N", b"P"];

const FACTORS: [&[u8]; 3] = [b"Tasa", b"Cuota", b"Exento"];

/// The set that knows codes by their form alone.
#[derive(Clone, Copy, Debug)]
pub struct Ruled;

// What the ruled set knows of a text that is a code.
fn by_form(catalogue: Catalogue, code: &[u8]) -> Option<u8>
    ensures { result ≡ by_form_of catalogue code.now }
{
    match catalogue {
        Catalogue::CodigoPostal => (code.len() == 5 && all_of(Digit, code)).then_some(0),
        Catalogue::ClaveProdServ => (code.len() == 8 && all_of(Digit, code)).then_some(0),
        Catalogue::TipoDeComprobante => TYPES.contains(&code).then_some(0),
        Catalogue::TipoFactor => FACTORS.contains(&code).then_some(0),
        Catalogue::Moneda => match code {
            b"MXN" | b"USD" => Some(2),
            b"XXX" => Some(0),
            _ => None,
        },
        Catalogue::FormaPago
        | Catalogue::Exportacion
        | Catalogue::MetodoPago
        | Catalogue::RegimenFiscal
        | Catalogue::ResidenciaFiscal
        | Catalogue::UsoCFDI
        | Catalogue::ClaveUnidad
        | Catalogue::ObjetoImp
        | Catalogue::Impuesto => Some(0),
    }
}

impl CatalogueSet for Ruled {
    ghost facts = { λ _. ruled };

    ghost small = { λ _. ruled_bounded };

    fn decimals(&self, catalogue: Catalogue, code: &[u8]) -> Option<u8> {
        if !is_code(code) {
            return None;
        }
        by_form(catalogue, code)
    }
}
