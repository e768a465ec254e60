// Invoices that differ in their Serie and Folio, and in the letters of their Conceptos.
use std::alloc::{AllocError, Global};

const HEAD: &[u8] =
    b"<cfdi:Comprobante xmlns:cfdi=\"http://www.sat.gob.mx/cfd/4\" xmlns:xsi=\"http://www.w3.org/2001/XMLSchema-instance\" xsi:schemaLocation=\"http://www.sat.gob.mx/cfd/4 http://www.sat.gob.mx/sitio_internet/cfd/4/cfdv40.xsd\" Version=\"4.0\"";

const MIDDLE: &[u8] =
    b" Fecha=\"2024-03-05T10:15:00\" FormaPago=\"01\" NoCertificado=\"30001000000500003416\" SubTotal=\"0\" Moneda=\"MXN\" Total=\"0\" TipoDeComprobante=\"I\" Exportacion=\"01\" LugarExpedicion=\"44100\" Sello=\"\" Certificado=\"\"><cfdi:Emisor Rfc=\"XAXX010101000\" Nombre=\"Barro\" RegimenFiscal=\"612\"/><cfdi:Receptor Rfc=\"XAXX010101000\" Nombre=\"Torno\" DomicilioFiscalReceptor=\"44100\" RegimenFiscalReceptor=\"616\" UsoCFDI=\"S01\"/><cfdi:Conceptos>";

const CONCEPTO: &[u8] =
    b"<cfdi:Concepto ClaveProdServ=\"01010101\" Cantidad=\"1\" ClaveUnidad=\"H87\" Descripcion=\"";

const CONCEPTO_END: &[u8] = b"\" ValorUnitario=\"0\" Importe=\"0\" ObjetoImp=\"01\"/>";

const END: &[u8] = b"</cfdi:Conceptos></cfdi:Comprobante>";

const CADENA: &[u8] =
    b"|2024-03-05T10:15:00|01|30001000000500003416|0|MXN|0|I|01|44100|XAXX010101000|Barro|612|XAXX010101000|Torno|44100|616|S01|01010101|1|H87|aaaa|0|0|01||";

/// The catalogues of these invoices, but for the regime of their Receptor.
pub const CATALOGUES: &[u8] =
    b"catalogo|clave|decimales\nFormaPago|01|0\nMoneda|MXN|2\nTipoDeComprobante|I|0\nExportacion|01|0\nCodigoPostal|44100|0\nRegimenFiscal|612|0\nUsoCFDI|S01|0\nClaveProdServ|01010101|0\nClaveUnidad|H87|0\nObjetoImp|01|0\n";

/// The Conceptos with 1,000 letters of a long invoice.
const LONG_CONCEPTOS: usize = 57;

/// The three digits of a number up to 999.
pub fn digits(n: u16) -> [u8; 3] {
    [
        b'0' + (n / 100 % 10) as u8,
        b'0' + (n / 10 % 10) as u8,
        b'0' + (n % 10) as u8,
    ]
}

fn add_concepto(text: &mut Vec<u8>, letters: usize) -> Result<(), AllocError> {
    text.extend_from_slice(CONCEPTO)?;
    for _ in 0..letters {
        text.push(b'a')?;
    }
    text.extend_from_slice(CONCEPTO_END)
}

fn begin(heap: Global, numbering: &[u8]) -> Result<Vec<u8>, AllocError> {
    let mut text = Vec::new(heap);
    text.extend_from_slice(HEAD)?;
    text.extend_from_slice(numbering)?;
    text.extend_from_slice(MIDDLE)?;
    Ok(text)
}

/// An invoice with the attributes that number it, which is its own fair copy where they are written as there.
pub fn invoice(heap: Global, numbering: &[u8]) -> Result<Vec<u8>, AllocError> {
    let mut text = begin(heap, numbering)?;
    add_concepto(&mut text, 4)?;
    text.extend_from_slice(END)?;
    Ok(text)
}

/// The cadena of such an invoice, with what its numbering gives.
pub fn cadena(heap: Global, numbering: &[u8]) -> Result<Vec<u8>, AllocError> {
    let mut text = Vec::new(heap);
    text.extend_from_slice(b"||4.0|")?;
    text.extend_from_slice(numbering)?;
    text.extend_from_slice(CADENA)?;
    Ok(text)
}

fn folio(heap: Global, n: u16) -> Result<Vec<u8>, AllocError> {
    let mut numbering = Vec::new(heap);
    numbering.extend_from_slice(b" Folio=\"")?;
    numbering.extend_from_slice(&digits(n))?;
    numbering.push(b'"')?;
    Ok(numbering)
}

/// The invoice with a Folio of three digits.
pub fn numbered(heap: Global, n: u16) -> Result<Vec<u8>, AllocError> {
    invoice(heap, &folio(heap, n)?)
}

/// An invoice of 65,347 bytes and so many letters more, up to 1,000.
pub fn long_invoice(heap: Global, n: u16, letters: usize) -> Result<Vec<u8>, AllocError> {
    let mut text = begin(heap, &folio(heap, n)?)?;
    for _ in 0..LONG_CONCEPTOS {
        add_concepto(&mut text, 1_000)?;
    }
    add_concepto(&mut text, letters)?;
    text.extend_from_slice(END)?;
    Ok(text)
}
