// The texts of documents that were read for their shape.
#![tactic(auto)]

#[cfg(test)]
mod tests {
    use catalogues::Ruled;
    use sinks::Buffer;
    use std::test::Fail;
    use texts::Shape;

    // Its Moneda is a code that the ruled set does not know.
    const UNKNOWN: &[u8] = b"<cfdi:Comprobante xmlns:cfdi='http://www.sat.gob.mx/cfd/4'
 xmlns:xsi='http://www.w3.org/2001/XMLSchema-instance'
 xsi:schemaLocation='http://www.sat.gob.mx/cfd/4 http://www.sat.gob.mx/sitio_internet/cfd/4/cfdv40.xsd'
 Version='4.0' Fecha='2024-01-02T03:04:05' FormaPago='01' NoCertificado='00001000000500000000'
 SubTotal='1' Moneda=' QQQ ' Total='1' TipoDeComprobante='I' Exportacion='01' LugarExpedicion='06000' Sello='' Certificado=''>
<cfdi:Emisor Rfc='AAA010101AAA' Nombre='Barro &amp;  Sol' RegimenFiscal='601'></cfdi:Emisor>
<cfdi:Receptor Rfc='XAXX010101000' Nombre='P' DomicilioFiscalReceptor='06000' RegimenFiscalReceptor='616' UsoCFDI='S01'/>
<cfdi:Conceptos><cfdi:Concepto ClaveProdServ='52151600' Cantidad='1' ClaveUnidad='H87' Descripcion='Taza' ValorUnitario='1' Importe='1' ObjetoImp='01'/></cfdi:Conceptos>
</cfdi:Comprobante>";

    const CADENA: &[u8] =
        b"||4.0|2024-01-02T03:04:05|01|00001000000500000000|1|QQQ|1|I|01|06000|AAA010101AAA|Barro & Sol|601|XAXX010101000|P|06000|616|S01|52151600|1|H87|Taza|1|1|01||";

    // Its Total is not the sum.
    const BROKEN: &[u8] = b"<cfdi:Comprobante xmlns:cfdi='http://www.sat.gob.mx/cfd/4'
 xmlns:xsi='http://www.w3.org/2001/XMLSchema-instance'
 xsi:schemaLocation='http://www.sat.gob.mx/cfd/4 http://www.sat.gob.mx/sitio_internet/cfd/4/cfdv40.xsd'
 Version='4.0' Fecha='2024-01-02T03:04:05' FormaPago='01' NoCertificado='00001000000500000000'
 SubTotal='1' Moneda='MXN' Total='2' TipoDeComprobante='I' Exportacion='01' LugarExpedicion='06000' Sello='' Certificado=''>
<cfdi:Emisor Rfc='AAA010101AAA' Nombre='Barro' RegimenFiscal='601'/>
<cfdi:Receptor Rfc='XAXX010101000' Nombre='P' DomicilioFiscalReceptor='06000' RegimenFiscalReceptor='616' UsoCFDI='S01'/>
<cfdi:Conceptos><cfdi:Concepto ClaveProdServ='52151600' Cantidad='1' ClaveUnidad='H87' Descripcion='Taza' ValorUnitario='1' Importe='1' ObjetoImp='01'/></cfdi:Conceptos>
</cfdi:Comprobante>";

    // Conceptos has an attribute, and may have none.
    const STRANGE: &[u8] = b"<cfdi:Comprobante xmlns:cfdi='http://www.sat.gob.mx/cfd/4'
 xmlns:xsi='http://www.w3.org/2001/XMLSchema-instance'
 xsi:schemaLocation='http://www.sat.gob.mx/cfd/4 http://www.sat.gob.mx/sitio_internet/cfd/4/cfdv40.xsd'
 Version='4.0' Fecha='2024-01-02T03:04:05' FormaPago='01' NoCertificado='00001000000500000000'
 SubTotal='1' Moneda='MXN' Total='1' TipoDeComprobante='I' Exportacion='01' LugarExpedicion='06000' Sello='' Certificado=''>
<cfdi:Emisor Rfc='AAA010101AAA' Nombre='Barro' RegimenFiscal='601'/>
<cfdi:Receptor Rfc='XAXX010101000' Nombre='P' DomicilioFiscalReceptor='06000' RegimenFiscalReceptor='616' UsoCFDI='S01'/>
<cfdi:Conceptos Otro='1'><cfdi:Concepto/></cfdi:Conceptos>
</cfdi:Comprobante>";

    #[test]
    fn a_shape_asks_no_catalogue(rt: HostRuntime) -> Result<(), Fail> {
        let mut room = [0u8; 1024];
        let mut buffer = Buffer::new(&mut room);
        match texts::cadena(UNKNOWN, &Ruled, &mut buffer) {
            Err(fault) => assert!(rt; fault.number() == 9),
            Ok(()) => return Err(Fail::new("the ruled set knew the code")),
        }
        let shape = Shape::read(UNKNOWN);
        assert!(rt; shape.cadena(&mut buffer).is_ok());
        assert!(rt; buffer.bytes() == CADENA);
        Ok(())
    }

    #[test]
    fn a_shape_adds_up_nothing(rt: HostRuntime) -> Result<(), Fail> {
        match texts::fair_copy_length(BROKEN, &Ruled) {
            Err(fault) => assert!(rt; fault.number() == 10),
            Ok(_) => return Err(Fail::new("a broken account passed")),
        }
        let shape = Shape::read(BROKEN);
        assert!(rt; shape.verdict().is_ok());
        Ok(())
    }

    #[test]
    fn an_unknown_attribute_is_told(rt: HostRuntime) -> Result<(), Fail> {
        let mut room = [0u8; 1024];
        let mut buffer = Buffer::new(&mut room);
        let shape = Shape::read(STRANGE);
        match shape.fair_copy(&mut buffer) {
            Err(fault) => assert!(rt; fault.number() == 6),
            Ok(()) => return Err(Fail::new("an unknown attribute passed")),
        }
        assert!(rt; buffer.count() == 0);
        Ok(())
    }

    #[test]
    fn a_length_is_counted(rt: HostRuntime) -> Result<(), Fail> {
        let mut room = [0u8; 1024];
        let mut copy = Buffer::new(&mut room);
        let shape = Shape::read(UNKNOWN);
        assert!(rt; shape.fair_copy(&mut copy).is_ok());
        match shape.fair_copy_length() {
            Ok(length) => {
                assert!(rt; length == copy.count());
                Ok(())
            },
            Err(_) => Err(Fail::new("a shape was refused")),
        }
    }

    // Whether the fair copy of a text is that text.
    fn is_its_own_copy(text: &[u8]) -> bool {
        let mut room = [0u8; 1024];
        let mut buffer = Buffer::new(&mut room);
        let shape = Shape::read(text);
        shape.fair_copy(&mut buffer).is_ok() && buffer.bytes() == text
    }

    #[test]
    fn a_fair_copy_is_its_own(rt: HostRuntime) {
        let mut room = [0u8; 1024];
        let mut copy = Buffer::new(&mut room);
        let shape = Shape::read(UNKNOWN);
        assert!(rt; shape.fair_copy(&mut copy).is_ok());
        assert!(rt; is_its_own_copy(copy.bytes()) && !is_its_own_copy(UNKNOWN));
    }
}
