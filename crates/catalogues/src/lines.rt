// The lines of a catalogue text.
ghost use Rattle.std.specs.Prelude.{◌≡◌, ◌-◌, ◌∷◌, ◌++◌, true, false, length, MatchOption};
ghost use Rattle.rules.specs.Catalogues.{catalogue_name, ended_lines};
ghost use Rattle.catalogues.specs.Lines.{line_at, key_of, key_at, last_of, is_named, pair_ok, fact_line, header_there};

use byte_classes::{Other, is_code, skip};
use rules::Catalogue;

/// The first line of a catalogue text, with its line feed.
pub(crate) const HEADER: &[u8; 25] = b"catalogo|clave|decimales\n";

const CATALOGUES: [Catalogue; 14] = [
    Catalogue::FormaPago,
    Catalogue::Moneda,
    Catalogue::TipoDeComprobante,
    Catalogue::Exportacion,
    Catalogue::MetodoPago,
    Catalogue::CodigoPostal,
    Catalogue::RegimenFiscal,
    Catalogue::ResidenciaFiscal,
    Catalogue::UsoCFDI,
    Catalogue::ClaveProdServ,
    Catalogue::ClaveUnidad,
    Catalogue::ObjetoImp,
    Catalogue::Impuesto,
    Catalogue::TipoFactor,
];

/// The name under which the lines of a catalogue stand.
pub(crate) fn name_of(catalogue: Catalogue) -> &'static [u8]
    ensures { result.now ≡ catalogue_name catalogue }
{
    match catalogue {
        Catalogue::FormaPago => b"FormaPago",
        Catalogue::Moneda => b"Moneda",
        Catalogue::TipoDeComprobante => b"TipoDeComprobante",
        Catalogue::Exportacion => b"Exportacion",
        Catalogue::MetodoPago => b"MetodoPago",
        Catalogue::CodigoPostal => b"CodigoPostal",
        Catalogue::RegimenFiscal => b"RegimenFiscal",
        Catalogue::ResidenciaFiscal => b"ResidenciaFiscal",
        Catalogue::UsoCFDI => b"UsoCFDI",
        Catalogue::ClaveProdServ => b"ClaveProdServ",
        Catalogue::ClaveUnidad => b"ClaveUnidad",
        Catalogue::ObjetoImp => b"ObjetoImp",
        Catalogue::Impuesto => b"Impuesto",
        Catalogue::TipoFactor => b"TipoFactor",
    }
}

// Whether a text is the name of a catalogue.
fn is_name(text: &[u8]) -> bool
    ensures { result ≡ is_named text.now }
{
    CATALOGUES.iter().any(|c| name_of(*c) == text)
}

/// The line that begins at a place, without its line feed.
pub(crate) fn line_from(text: &[u8], at: usize) -> &[u8]
    ensures { result.now ≡ line_at text.now at }
{
    let end = skip(Other(b'\n'), text, at);
    text.get(at..end).unwrap_or(&[])
}

/// The key of the line that begins at a place: what stands before its last two bytes.
pub(crate) fn key_from(text: &[u8], at: usize) -> &[u8]
    ensures { result.now ≡ key_at text.now at }
{
    let line = line_from(text, at);
    &line[..line.len().saturating_sub(2)]
}

// The name of a catalogue and the code between which `|` stands in a text, if it is made of them.
fn pair(text: &[u8]) -> Option<(&[u8], &[u8])>
    ensures { MatchOption result (pair_ok text.now ≡ false) (λ p. (pair_ok text.now ≡ true) × (text.now ≡ p.0.now ++ 124 ∷ p.1.now)) }
{
    let (name, rest) = text.split_at(skip(Other(b'|'), text, 0));
    let code = rest.strip_prefix(b"|")?;
    (is_name(name) && is_code(code)).then_some((name, code))
}

/// The catalogue's name and the code of a line that tells a fact: both and a digit 0 to 6, with `|` between them.
pub(crate) fn fact(line: &[u8]) -> Option<(&[u8], &[u8])>
    ensures { MatchOption result (fact_line line.now ≡ false) (λ p. (fact_line line.now ≡ true) × (key_of line.now ≡ p.0.now ++ 124 ∷ p.1.now)) }
{
    let [key @ .., b'|', b'0'..=b'6'] = line else {
        return None;
    };
    pair(key)
}

/// The decimals of the fact that a line tells.
pub(crate) fn decimals_of(line: &[u8]) -> u8
    requires { fact_line line.now ≡ true }
    ensures { result ≡ last_of line.now - 48 }
{
    line[line.len() - 1] - b'0'
}

/// How many line feeds a text has.
pub(crate) fn line_feeds(text: &[u8]) -> usize
    ensures { result ≡ length (ended_lines text.now) }
{
    text.iter().filter(|b| **b == b'\n').count()
}

/// Whether the first line is ended, and is the one that every catalogue text has.
pub(crate) fn has_header(text: &[u8]) -> bool
    ensures { result ≡ header_there text.now }
{
    text.starts_with(HEADER)
}
